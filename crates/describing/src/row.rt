// A row of the list.
ghost use Rattle.std.specs.Prelude.{◌≡◌, ◌+◌, ◌*◌, ◌≤◌, ◌<◌, ◌^◌, length};
ghost use Rattle.describing.specs.List.{usage_of, number_of, place_of, length_of};

// The pair of a resource, and where its text stands in the texts.
#[derive(Clone, Copy)]
pub(crate) struct Row {
    pub usage: u32,
    pub number: u32,
    pub place: usize,
    pub length: usize,
    ghost place_small: { place < 2 ^ 32 },
    ghost length_small: { length < 2 ^ 32 },
}

impl Row {
    // Row `i`.
    pub(crate) fn at(rows: &[u32], i: usize) -> Row
        requires { 4 * i + 4 ≤ length rows.now }
        ensures { (result.usage ≡ usage_of rows.now i) × (result.number ≡ number_of rows.now i)
            × (result.place ≡ place_of rows.now i) × (result.length ≡ length_of rows.now i) }
    {
        Row {
            usage: rows[4 * i],
            number: rows[4 * i + 1],
            place: rows[4 * i + 2] as usize,
            length: rows[4 * i + 3] as usize,
        }
    }
}
