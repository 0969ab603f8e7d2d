// The answer of a pick.

// Where a FORM stands in its file, header in and padding out.
#[derive(Clone, Copy, PartialEq, Eq, Debug)]
pub struct Picked {
    pub start: usize,
    pub length: usize,
}
