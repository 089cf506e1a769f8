// No code: a recorded run with a cut at every point, what it finds, and what is shown of it (specs/, proofs/).

#![tactic(auto)]
