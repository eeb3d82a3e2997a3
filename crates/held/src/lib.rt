// That every call is judged to have held, by the first statement of the C interface: definitions and laws, and no code.
#![tactic(auto)]
