// The plain machine, lists of calls, and demands 1 and 3: definitions and theorems. The calls' code stands above.
#![tactic(auto)]
