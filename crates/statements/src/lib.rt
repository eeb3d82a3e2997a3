// What is claimed of the core as a whole: definitions and theorems in specs/, and no code.
#![tactic(auto)]
