// Cases computed from the definitions of crates rules and upkeep that take longer than their own: no edit of a definition waits for them. No code.

#![tactic(auto)]
