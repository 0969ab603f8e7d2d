// The chunk's bytes: its size, and the writing.
ghost use Rattle.std.specs.Prelude.{◌≡◌, ◌+◌, ◌*◌, ◌%◌, ◌≤◌, ◌<◌, length, MatchOption};
ghost use Rattle.blorb.specs.Format.{chunk_bytes, chunk_of};
ghost use Rattle.edits.specs.Run.{noted};
ghost use Rattle.rdes.specs.Rdes.{RDes, desc, entries_bytes, body_of};
ghost use Rattle.describing.specs.Bridging.{entry_bytes};
ghost use Rattle.describing.specs.List.{place_of, length_of, row_at, rows_from};
ghost use Rattle.describing.specs.Bridging.{Within, entries_size};

use crate::row::Row;

const RDES: u64 = 0x52446573;

// The chunk's data length for `n` rows, none where it is over the limit. The sum stops there, so it can't wrap.
pub(crate) fn data_size(rows: &[u32], n: usize) -> Option<usize>
    requires { 4 * n ≤ length rows.now }
    ensures { MatchOption result (16777216 < 4 + entries_size rows.now n 0) (λ m. (m ≡ 4 + entries_size rows.now n 0) × (m ≤ 16777216)) }
{
    let mut size: usize = 4;
    for i in 0..n {
        size += 12 + Row::at(rows, i).length;
        if 16777216 < size {
            return None;
        }
    }
    Some(size)
}

// One entry at `at`. A text of no bytes is not copied: the call costs more than all the rest of such an entry.
fn put_entry(buf: &mut [u8], at: usize, usage: u32, number: u32, text: &[u8])
    requires { at + (12 + length text.now) ≤ length buf.old }
    ensures { buf.new ≡ noted buf.old at (entry_bytes (desc usage number text.now)) }
{
    moves::put_words(buf, at, usage as u64, number as u64, text.len() as u64);
    if !text.is_empty() {
        moves::copy_in(buf, at + 12, text);
    }
}

// The entry of row `i` at `at`; what stands behind it begins at the answer.
fn put_row(buf: &mut [u8], at: usize, rows: &[u32], texts: &[u8], i: usize) -> usize
    requires { (4 * i + 4 ≤ length rows.now) × ((place_of rows.now i + length_of rows.now i ≤ length texts.now)
        × (at + (12 + length_of rows.now i) ≤ length buf.old)) }
    ensures { (result ≡ at + (12 + length_of rows.now i))
        × (buf.new ≡ noted buf.old at (entry_bytes (row_at rows.now texts.now i))) }
{
    let row = Row::at(rows, i);
    let text = &texts[row.place..row.place + row.length];
    put_entry(buf, at, row.usage, row.number, text);
    at + (12 + row.length)
}

// The entries of the first `n` rows, from offset 12 on.
fn put_entries(buf: &mut [u8], rows: &[u32], texts: &[u8], n: usize)
    requires { (4 * n ≤ length rows.now) × (Within rows.now texts.now n × (12 + entries_size rows.now n 0 ≤ length buf.old)) }
    ensures { buf.new ≡ noted buf.old 12 (entries_bytes (rows_from rows.now texts.now n 0)) }
{
    let mut at: usize = 12;
    for i in 0..n {
        at = put_row(buf, at, rows, texts, i);
    }
}

// The whole chunk of the first `n` rows, whose data has `m` bytes.
pub(crate) fn put_list(buf: &mut [u8], rows: &[u32], texts: &[u8], n: usize, m: usize)
    requires { (4 * n ≤ length rows.now) × (Within rows.now texts.now n
        × ((m ≡ 4 + entries_size rows.now n 0) × (8 + (m + m % 2) ≤ length buf.old))) }
    ensures { buf.new ≡ noted buf.old 0
        (chunk_bytes (chunk_of RDes (body_of (rows_from rows.now texts.now n 0)))) }
{
    moves::put_words(buf, 0, RDES, m as u64, n as u64);
    put_entries(buf, rows, texts, n);
    moves::clear(buf, 8 + m, m % 2);
}
