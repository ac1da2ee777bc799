// The marked plans M1 to M10: a table about the definitions, proved.
#![tactic(auto)]
