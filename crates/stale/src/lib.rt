// Which edits and undos leave a file's finding table good, and that every other one makes it stale: definitions and laws.

#![tactic(auto)]
