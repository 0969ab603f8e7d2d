// The grammar of the artists' group files: trees of FORMs, groups, PROPs and plain chunks, and that just their files are accepted: definitions and laws.

#![tactic(auto)]
