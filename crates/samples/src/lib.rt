// 01's sample files as theorems: proofs/Table.antt.

#![tactic(auto)]
