// Worked cases of the definitions: byte strings, questions, orders, pairs of plans, counts, whole books and whole runs as literals, proved by computing.
#![tactic(auto)]
