// The rows of a 'Reso' chunk (02, P4): refusal 33, and the row of a picture.
#![tactic(auto)]

ghost use Rattle.std.specs.Prelude.{◌≡◌, ◌+◌, ◌-◌, ◌%◌, ◌≤◌, true, false, length, MatchOption};
ghost use Rattle.reso.specs.Reso.{fraction_at_of, row_at, fits, limit_good_of, ordered, row_good_of, rows_good_of, distinct, pictures, rows_of};
ghost use Rattle.reso.specs.Reso.{shaped, window_good_of, count_of, reso_good};
ghost use Rattle.reso.specs.Places.{row_place};

use ratio::{Fraction, Ratios};

fn fits_small(a: Fraction) -> bool
    ensures { result ≡ fits a }
{
    a.num <= 65535 && a.den <= 65535
}

fn limit_good(a: Fraction) -> bool
    ensures { result ≡ limit_good_of a }
{
    a.is_none() || a.den != 0
}

fn in_order(least: Fraction, greatest: Fraction) -> bool
    ensures { result ≡ ordered least greatest }
{
    least.is_none() || greatest.is_none() || least.at_most(greatest)
}

pub fn fraction_at(d: &[u8], at: usize) -> Fraction
    requires { at + 8 ≤ length d.now }
    ensures { result ≡ fraction_at_of d.now at }
{
    Fraction {
        num: blorb::be32_at(d, at) as u32,
        den: blorb::be32_at(d, at + 4) as u32,
    }
}

// The ratios in the row at `at`.
pub fn ratios_at(d: &[u8], at: usize) -> Ratios
    requires { at + 28 ≤ length d.now }
    ensures standard { result.standard ≡ fraction_at_of d.now (at + 4) }
    ensures least { result.least ≡ fraction_at_of d.now (at + 12) }
    ensures greatest { result.greatest ≡ fraction_at_of d.now (at + 20) }
{
    Ratios {
        standard: fraction_at(d, at + 4),
        least: fraction_at(d, at + 12),
        greatest: fraction_at(d, at + 20),
    }
}

// What refusal 33 asks of a row by itself.
#[tactic(auto, unfolding(crate::specs::Reso::row_good_of))]
fn row_good(row: &[u8]) -> bool
    requires { 28 ≤ length row.now }
    ensures { result ≡ row_good_of (row_at row.now 0) }
{
    let r = ratios_at(row, 0);
    fits_small(r.standard)
        && fits_small(r.least)
        && fits_small(r.greatest)
        && r.standard.den != 0
        && limit_good(r.least)
        && limit_good(r.greatest)
        && in_order(r.least, r.greatest)
}

// The data of a 'Reso' chunk: six numbers of four bytes, and rows of 28 bytes each.
#[derive(Clone, Copy)]
pub struct Reso<'a> {
    pub bytes: &'a [u8],
    ghost windows: { 24 ≤ length bytes.now },
    ghost whole_rows: { (length bytes.now - 24) % 28 ≡ 0 },
}

impl<'a> Reso<'a> {
    // None where the length is not that of whole rows: refusal 32.
    #[tactic(auto, unfolding(crate::specs::Reso::shaped))]
    pub fn of(bytes: &'a [u8]) -> Option<Reso<'a>>
        ensures { MatchOption result (shaped (length bytes.now) ≡ false) (λ r. (shaped (length bytes.now) ≡ true) × (r.bytes.now ≡ bytes.now)) }
    {
        if bytes.len() < 24 || (bytes.len() - 24) % 28 != 0 {
            return None;
        }
        Some(Reso { bytes })
    }

    fn count(&self) -> usize
        ensures { result ≡ count_of (length self.now.bytes.now) }
    {
        (self.bytes.len() - 24) / 28
    }

    // What refusal 33 asks of all rows, each by itself: one pass.
    fn rows_good(&self) -> bool
        ensures { result ≡ rows_good_of (rows_of self.now.bytes.now) }
    {
        self.bytes[24..].chunks_exact(28).all(row_good)
    }

    // Whether no picture number is repeated.
    fn all_distinct(&self) -> bool
        ensures { result ≡ distinct (pictures (rows_of self.now.bytes.now)) }
    {
        repeats::in_rows(self.bytes, 28, 24, self.count()).is_none()
    }

    // Refusal 33 of the six numbers before the rows.
    #[tactic(auto, unfolding(crate::specs::Reso::window_good_of))]
    fn window_good(&self) -> bool
        ensures { result ≡ window_good_of self.now.bytes.now }
    {
        let standard = fraction_at(self.bytes, 0);
        fits_small(standard)
            && fits_small(fraction_at(self.bytes, 8))
            && fits_small(fraction_at(self.bytes, 16))
            && standard.num != 0
            && standard.den != 0
    }

    // Refusal 33 of the whole chunk.
    #[tactic(auto, unfolding(crate::specs::Reso::reso_good))]
    pub fn is_good(&self) -> bool
        ensures { result ≡ reso_good self.now.bytes.now }
    {
        self.window_good() && self.rows_good() && self.all_distinct()
    }

    // Where the row of a picture begins.
    pub fn find_row(&self, picture: u32) -> Option<usize>
        ensures { result ≡ row_place picture self.now.bytes.now (count_of (length self.now.bytes.now)) 24 }
    {
        let i = self.bytes[24..]
            .chunks_exact(28)
            .position(|row| blorb::be32_at(row, 0) == picture as u64)?;
        Some(24 + 28 * i)
    }
}
