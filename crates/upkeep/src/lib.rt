// No code: what cleaning a block, sweeping, picking a block and doubtful slots answer and leave, with their laws and cases (specs/, proofs/).

#![tactic(auto)]
