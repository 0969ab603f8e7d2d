// The entries of an 'RDes' chunk's data: refusals 37 to 39, an entry by its number, and the text of a pair.
ghost use Rattle.std.specs.Prelude.{◌≡◌, ◌+◌, ◌≤◌, ◌<◌, true, false, ◌&&◌, [], length, eqb, MatchOption, IfOk};
ghost use Rattle.blorb.specs.Refusals.{verdict_of};
ghost use Rattle.blorb.specs.Bytes.{rd32};
ghost use Rattle.rdes.specs.Rdes.{usage_at, number_at, size_at, next_at, fills, descs_of, entries_fault, chunk_fault, offset_of};
ghost use Rattle.descriptions.specs.Texts.{get_of, tell_of, told_with};
ghost use Rattle.descriptions.specs.Faults.{BadAt, GoodTo, repeat_fault};

use crate::{Described, Told};
use blorb::{Fault, Refusal};
use std::marker::Model;

// An entry with a bad text: its number, where it stands in the data, and the length of the text's longest good beginning.
#[derive(Clone, Copy)]
struct BadText {
    entry: usize,
    at: usize,
    good: usize,
}

// The entries of an 'RDes' that begins at `start` in the file. They fill its data.
#[derive(Drop)]
pub(crate) struct Entries<'a> {
    bytes: &'a [u8],
    start: usize,
    count: usize,
}

impl<'a> Model for Entries<'a> {
    ghost use Rattle.descriptions.specs.Placed.{Placed, Filled};

    ghost Value = { Placed };

    ghost view = { λ e. record { bytes = e.bytes.now; start = e.start } };

    ghost invariant = { λ e. Filled e.bytes.now e.start e.count };
}

// Refusal 37: whether the entries fill the data exactly.
fn fills_exactly(d: &[u8]) -> bool
    ensures { result ≡ fills d.now }
{
    if d.len() < 4 {
        return false;
    }
    let count = blorb::be32_at(d, 0);
    let mut at: usize = 4;
    for _ in 0..count {
        if d.len() - at < 12 {
            return false;
        }
        let size = blorb::be32_at(d, at + 8) as usize;
        if d.len() - at - 12 < size {
            return false;
        }
        at = at + 12 + size;
    }
    at == d.len()
}

// Where the entry behind the one at `at` stands.
fn next(d: &[u8], at: usize) -> usize
    requires { (at + 12 ≤ length d.now) × (next_at d.now at ≤ length d.now) }
    ensures { result ≡ next_at d.now at }
{
    at + 12 + blorb::be32_at(d, at + 8) as usize
}

fn has_pair(d: &[u8], at: usize, usage: u64, number: u64) -> bool
    requires { at + 12 ≤ length d.now }
    ensures { result ≡ (eqb (usage_at d.now at) usage && eqb (number_at d.now at) number) }
{
    (blorb::be32_at(d, at) == usage) & (blorb::be32_at(d, at + 4) == number)
}

impl<'a> Entries<'a> {
    // The entries of the 'RDes' at `start` with these data, or refusals 37 to 39. It stands in its caller, for the stack's sake: what it calls has
    // the marks on the stack.
    #[inline(always)]
    pub(crate) fn open(bytes: &'a [u8], start: usize) -> Result<Entries<'a>, Refusal>
        requires { start + 8 + length bytes.now < 9223372036854775808 }
        ensures fault { verdict_of result ≡ chunk_fault bytes.now start }
        ensures same { IfOk result (λ e. (e.bytes ≡ bytes.now) × (e.start ≡ start)) }
    {
        if !fills_exactly(bytes) {
            return Err(Refusal {
                fault: Fault::RdesLength,
                place: start,
            });
        }
        let entries = Entries {
            bytes,
            start,
            count: blorb::be32_at(bytes, 0) as usize,
        };
        entries.judge()?;
        Ok(entries)
    }

    // The place in the file of offset `at` in the data.
    fn place(&self, at: usize) -> usize
        requires { at ≤ length self.now.bytes }
        ensures { result ≡ self.now.start + 8 + at }
    {
        self.start + 8 + at
    }

    // Where entry `n` stands.
    fn offset(&self, n: usize) -> usize
        requires { n < rd32 self.now.bytes }
        ensures { (result ≡ offset_of self.now.bytes n 4) × (result + 12 ≤ length self.now.bytes)
            × (next_at self.now.bytes result ≤ length self.now.bytes) }
    {
        let mut at: usize = 4;
        for _ in 0..n {
            at = next(self.bytes, at);
        }
        at
    }

    // The text of the entry at `at`.
    fn text(&self, at: usize) -> Told
        requires { (at + 12 ≤ length self.now.bytes) × (next_at self.now.bytes at ≤ length self.now.bytes) }
        ensures { result ≡ told_with (self.now.start + 8 + at + 12) (size_at self.now.bytes at) }
    {
        let length = blorb::be32_at(self.bytes, at + 8) as usize;
        Told {
            start: self.place(at + 12),
            length,
        }
    }

    // Entry `n`.
    pub(crate) fn get(&self, n: usize) -> Option<Described>
        ensures { result ≡ get_of self.now.bytes self.now.start n }
    {
        if n >= self.count {
            return None;
        }
        let at = self.offset(n);
        let text = self.text(at);
        Some(Described {
            usage: blorb::be32_at(self.bytes, at) as u32,
            number: blorb::be32_at(self.bytes, at + 4) as u32,
            start: text.start,
            length: text.length,
        })
    }

    // The text of the first entry that has this pair.
    pub(crate) fn tell(&self, usage: u64, number: u64) -> Option<Told>
        ensures { result ≡ tell_of usage number self.now.bytes self.now.start }
    {
        let mut at: usize = 4;
        for _ in 0..self.count {
            if has_pair(self.bytes, at, usage, number) {
                return Some(self.text(at));
            }
            at = next(self.bytes, at);
        }
        None
    }

    // The first entry whose text is not UTF-8.
    fn bad_text(&self) -> Option<BadText>
        ensures { MatchOption result (GoodTo self.now.bytes (rd32 self.now.bytes)) (BadAt self.now.bytes (rd32 self.now.bytes)) }
    {
        let mut at: usize = 4;
        for entry in 0..self.count {
            let from = at + 12;
            let next = next(self.bytes, at);
            let text = &self.bytes[from..next];
            let good = utf8::good_length(text);
            if good != text.len() {
                return Some(BadText { entry, at, good });
            }
            at = next;
        }
        None
    }

    // Refusal 38 of the first `n` entries.
    fn distinct(&self, n: usize) -> Result<(), Refusal>
        requires { n ≤ rd32 self.now.bytes }
        ensures { verdict_of result ≡ repeat_fault self.now.bytes (self.now.start + 8) n }
    {
        match repeats::in_entries(self.bytes, 4, n) {
            None => Ok(()),
            Some(j) => Err(Refusal {
                fault: Fault::RdesRepeated,
                place: self.place(self.offset(j)),
            }),
        }
    }

    // Refusals 38 and 39, "entry by entry, 38 before 39": the pairs are looked at up to the first entry with a bad text.
    fn judge(&self) -> Result<(), Refusal>
        ensures { verdict_of result ≡ entries_fault [] (self.now.start + 8 + 4) (descs_of self.now.bytes) }
    {
        let Some(bad) = self.bad_text() else {
            return self.distinct(self.count);
        };
        self.distinct(bad.entry + 1)?;
        Err(Refusal {
            fault: Fault::RdesText,
            place: self.place(bad.at + 12 + bad.good),
        })
    }
}
