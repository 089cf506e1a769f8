// No code: searches over the numbers below a bound, and lists as parts of one width (specs/).

#![tactic(auto)]
