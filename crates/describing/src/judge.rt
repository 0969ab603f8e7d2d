// The rows of a list judged: refusals 38 and 39. The first bad text is found in one pass; whether a pair is repeated is then asked of the rows up to
// that one only.
ghost use Rattle.std.specs.Prelude.{◌≡◌, ◌+◌, ◌*◌, ◌≤◌, ◌<◌, length, MatchOption};
ghost use Rattle.blorb.specs.Refusals.{verdict_of};
ghost use Rattle.describing.specs.Writing.{text_good_of, rows_fault};
ghost use Rattle.describing.specs.Judging.{FirstBad, repeat_fault};

use crate::row::Row;
use blorb::{Fault, Refusal};
use shared_texts::{Segments, WORDS};

// Whether the text of row `i` lies in its slice and is UTF-8.
fn text_good(rows: &[u32], i: usize, texts: &mut Segments<'_>) -> bool
    requires { 4 * i + 4 ≤ length rows.now }
    ensures { (result ≡ text_good_of rows.now texts.old.texts i) × (texts.new ≡ texts.old) }
{
    let row = Row::at(rows, i);
    let end = row.place + row.length;
    end <= texts.len() && texts.is_text(row.place, end)
}

// The first of n rows that has a bad text.
fn first_bad(rows: &[u32], n: usize, texts: &mut Segments<'_>) -> Option<usize>
    requires { 4 * n ≤ length rows.now }
    ensures { MatchOption result (FirstBad rows.now texts.old.texts n n) (λ t. (t < n) × FirstBad rows.now texts.old.texts n t) }
{
    for i in 0..n {
        if !text_good(rows, i, texts) {
            return Some(i);
        }
    }
    None
}

// Refusal 38 of the first n rows.
fn distinct(rows: &[u32], n: usize, words: &mut [u64; WORDS]) -> Result<(), Refusal>
    requires { 4 * n ≤ length rows.now }
    ensures { verdict_of result ≡ repeat_fault rows.now n }
{
    match repeats::in_list(rows, n, words) {
        None => Ok(()),
        Some(i) => Err(Refusal {
            fault: Fault::RdesRepeated,
            place: i,
        }),
    }
}

// Refusals 38 and 39 of the first `n` rows. One array serves both searches, for the stack's sake: what is remembered of the texts, then the marks.
pub(crate) fn judge(rows: &[u32], texts: &[u8], n: usize) -> Result<(), Refusal>
    requires { 4 * n ≤ length rows.now }
    ensures { verdict_of result ≡ rows_fault rows.now texts.now n 0 }
{
    let mut words = [0u64; WORDS];
    match first_bad(rows, n, &mut Segments::new(texts, &mut words)) {
        None => distinct(rows, n, &mut words),
        Some(bad) => {
            distinct(rows, bad + 1, &mut words)?;
            Err(Refusal {
                fault: Fault::RdesText,
                place: bad,
            })
        }
    }
}
