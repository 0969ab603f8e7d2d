// What an edit and an undo do to a file and its journal: definitions and laws.

#![tactic(auto)]
