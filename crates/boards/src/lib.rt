// What every board does with ports that have moved: definitions and laws, over any move. The code that follows them is a board's own.
#![tactic(auto)]
