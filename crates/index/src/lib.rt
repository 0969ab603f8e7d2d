// The index of a Blorb file: its entries (12 to 16, 27), an entry by its pair, and the optional chunks (17 to 19).
#![tactic(auto)]

pub mod entries;
pub mod optional;
