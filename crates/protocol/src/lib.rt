// What planbook reads and prints: definitions and theorems. The code that does so stands above.
#![tactic(auto)]
