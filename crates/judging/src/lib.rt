// What is refused, told from the present file without making the new one.
#![tactic(auto)]

pub mod judge;
