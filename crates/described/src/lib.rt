// No code: what is written by `describing` is read back by `descriptions` (proofs/).

#![tactic(auto)]
