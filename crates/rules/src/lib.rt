// No code: what the calls on a volume answer and leave, but for cleaning, sweeping, picking and doubtful slots (crate upkeep): definitions with their laws and worked cases (specs/, proofs/).

#![tactic(auto)]
