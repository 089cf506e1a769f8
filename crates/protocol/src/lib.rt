// No code: the invariant over the set of records, what recovery finds under it, and the steps that keep it (specs/, proofs/).

#![tactic(auto)]
