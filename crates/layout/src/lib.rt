// The register's bytes: definitions and theorems. The code that reads and writes them stands above.
#![tactic(auto)]
