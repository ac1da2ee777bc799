// What the register's calls answer and leave in its bytes: definitions and theorems. The calls' code stands above.
#![tactic(auto)]
