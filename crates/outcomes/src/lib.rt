// What a port's move can come to, and what follows of every move: laws, and no code.
#![tactic(auto)]
