// The data of an 'RDes' chunk, its texts and its faults: definitions and laws.

#![tactic(auto)]
