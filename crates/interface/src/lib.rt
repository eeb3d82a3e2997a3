// What holds of the C interface, function by function: laws and the first statement, and no code.
#![tactic(auto)]
