// Where the keys of the three lists are read.

ghost use Rattle.std.specs.Prelude.{◌≡◌, ◌+◌, ◌^◌, ◌≤◌, ◌<◌};
ghost use Rattle.repeats.specs.Keys.{pair_key_of};
ghost use Rattle.repeats.specs.Source.{Source, of_rows, of_entries, of_numbers, spot, key};

use std::alloc::AllocError;

// A list whose entries have keys: `source` says what is read where.
pub trait Keys: Copy {
    ghost source: { Self → Source };

    // Where the first entry stands.
    fn base(&self) -> usize
        ensures { result ≡ (source self.now).base };

    // The key of the entry at `at`.
    fn key_at(&self, at: usize) -> u64
        requires { (source self.now).Reads at }
        ensures { result ≡ (source self.now).key_at at };

    // Where the entry behind the one at `at` stands.
    fn next_at(&self, at: usize) -> usize
        requires { (source self.now).Reads at }
        ensures { result ≡ (source self.now).next_at at };
}

// Two numbers as one.
fn pair(u: u32, n: u32) -> u64
    ensures { result ≡ pair_key_of u n }
{
    u as u64 * 4294967296 + n as u64
}

// Rows of `step` bytes that begin with a number.
#[derive(Clone, Copy)]
pub struct Rows<'a> {
    pub bytes: &'a [u8],
    pub step: usize,
    pub base: usize,
}

impl Keys for Rows<'_> {
    ghost source = { λ r. of_rows r.bytes.now r.step r.base };

    fn base(&self) -> usize {
        self.base
    }

    fn key_at(&self, at: usize) -> u64 {
        blorb::be32_at(self.bytes, at)
    }

    fn next_at(&self, at: usize) -> usize {
        at + self.step
    }
}

// Entries of two numbers, a text's length and the text.
#[derive(Clone, Copy)]
pub struct Entries<'a> {
    pub bytes: &'a [u8],
    pub base: usize,
}

impl Keys for Entries<'_> {
    ghost source = { λ r. of_entries r.bytes.now r.base };

    fn base(&self) -> usize {
        self.base
    }

    fn key_at(&self, at: usize) -> u64 {
        blorb::be32_at(self.bytes, at) * 4294967296 + blorb::be32_at(self.bytes, at + 4)
    }

    fn next_at(&self, at: usize) -> usize {
        at + (12 + blorb::be32_at(self.bytes, at + 8) as usize)
    }
}

// Rows of four numbers, the first two of them the pair.
#[derive(Clone, Copy)]
pub struct Numbers<'a> {
    pub numbers: &'a [u32],
}

impl Keys for Numbers<'_> {
    ghost source = { λ r. of_numbers r.numbers.now };

    fn base(&self) -> usize {
        0
    }

    fn key_at(&self, at: usize) -> u64 {
        pair(self.numbers[at], self.numbers[at + 1])
    }

    fn next_at(&self, at: usize) -> usize {
        at + 4
    }
}

// An entry of a list: its number, and where it stands.
pub struct Cursor<L: Keys> {
    pub list: L,
    pub entry: usize,
    pub at: usize,
    ghost stands: { at ≡ spot (L.source list) entry },
}

// By hand: a derive has no place for the ghost field.
impl<L: Keys> Clone for Cursor<L> {
    fn clone(&self) -> Result<Self, AllocError> {
        Ok(*self)
    }
}

impl<L: Keys> Copy for Cursor<L> {}

impl<L: Keys> Cursor<L> {
    // The list's first entry.
    pub fn start(list: L) -> Self
        ensures list { result.list ≡ list }
        ensures entry { result.entry ≡ 0 }
    {
        Cursor {
            list,
            entry: 0,
            at: list.base(),
        }
    }

    pub fn key(&self) -> u64
        requires { (L.source self.now.list).Reads (spot (L.source self.now.list) self.now.entry) }
        ensures { result ≡ key (L.source self.now.list) self.now.entry }
    {
        self.list.key_at(self.at)
    }

    // The entry behind it.
    pub fn next(self) -> Self
        requires counted { self.entry + 1 < 2 ^ 64 }
        requires reads { (L.source self.list).Reads (spot (L.source self.list) self.entry) }
        ensures list { result.list ≡ self.list }
        ensures entry { result.entry ≡ self.entry + 1 }
    {
        Cursor {
            list: self.list,
            entry: self.entry + 1,
            at: self.list.next_at(self.at),
        }
    }
}
