// A chunk of an EA IFF 85 file as a member of a FORM or a group: its kind, what it may stand in, and its faults (41 to 44).
#![tactic(auto)]

mod kinds;
mod spot;

pub use spot::Spot;

// A chunk by its type.
#[derive(Clone, Copy, PartialEq, Eq, Debug)]
pub enum Kind {
    Form,
    List,
    Cat,
    Prop,
    Plain,
}

// What a chunk stands in; ListHead: a LIST, with nothing but PROPs before.
#[derive(Clone, Copy, PartialEq, Eq, Debug)]
pub enum Place {
    Top,
    InForm,
    ListHead,
    InGroup,
    InProp,
}
