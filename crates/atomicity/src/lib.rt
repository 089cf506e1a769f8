// No code: promise 3, stated (specs/) and proved (proofs/).

#![tactic(auto)]
