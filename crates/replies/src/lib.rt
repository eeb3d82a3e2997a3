// What the calls on a table answer: cold start, control write, status read and request, on a table and on cells, and their laws; no code.
#![tactic(auto)]
