// Faulty work, that which document 01 turns down among it: what no program that meets the contracts does, as one proved table.
#![tactic(auto)]
