// The files that edits give, written over the present one in place.
#![tactic(auto)]

ghost use Rattle.std.specs.Prelude.{◌≡◌, ◌+◌, ◌-◌, ◌*◌, ◌%◌, ◌≤◌, ◌<◌, length, take};
ghost use Rattle.blorb.specs.Format.{chunk_of};
ghost use Rattle.blorb.specs.Model.{model, file};
ghost use Rattle.edits.specs.Edit.{added, removed, replaced, entered, inserted};
ghost use Rattle.blorb.specs.Queries.{ref_at, place_at};
ghost use Rattle.edits.specs.Run.{written};
ghost use Rattle.rewrite.specs.Rewriting.{Stands, closed, resized, Removable, Replaceable, Insertable};
ghost use Rattle.edits.specs.Starts.{behind};
ghost use Rattle.moves.specs.Moves.{starts_moved};

use blorb::Pair;
use moves::{Move, Step, shift};
use std::cmp::Ordering;

// The file that a buffer begins with: its length, and how many entries its index has.
#[derive(Clone, Copy)]
pub struct Extent {
    pub len: usize,
    pub count: usize,
}

impl Extent {
    // How many bytes stand behind its index.
    fn behind(self) -> usize
        requires { 24 + 12 * self.count ≤ self.len }
        ensures { result ≡ self.len - (24 + 12 * self.count) }
    {
        self.len - (24 + 12 * self.count)
    }
}

// An entry by its place in the index, and so many bytes of its chunk, from where that begins.
#[derive(Clone, Copy)]
pub struct Part {
    pub place: usize,
    pub start: usize,
    pub size: usize,
}

// Where a new entry goes into the index, and where its chunk begins, in the present file.
#[derive(Clone, Copy)]
pub struct Gap {
    pub place: usize,
    pub at: usize,
}

// How many bytes a chunk with this data takes, with the padding.
fn chunk_size(d: &[u8]) -> usize
    ensures { result ≡ 8 + (length d.now + length d.now % 2) }
{
    let m = d.len();
    8 + (m + m % 2)
}

// The file with a new entry and chunk, written over the present one: both go in at their ends.
pub fn add_bytes(buf: &mut [u8], extent: Extent, pair: Pair, kind: u32, d: &[u8])
    requires { Stands buf.old extent.len extent.count
        × ((extent.len + (20 + (length d.now + length d.now % 2)) ≤ length buf.old)
        × (extent.len + (20 + (length d.now + length d.now % 2)) ≤ 16777216)) }
    ensures { buf.new ≡ written buf.old extent.len
        (file (added (model (take extent.len buf.old)) pair.usage pair.number (chunk_of kind d.now))) }
{
    let end = Gap {
        place: extent.count,
        at: extent.len,
    };
    insert_bytes(buf, extent, end, pair, kind, d);
}

// The `k` bytes at `at` of the first `len` go: what stands behind them closes up, and zeros follow.
pub fn close_gap(buf: &mut [u8], at: usize, len: usize, k: usize)
    requires { (at + k ≤ len) × (len ≤ length buf.old) }
    ensures { buf.new ≡ closed buf.old at len k }
{
    shift::shift_left(buf, at + k, len, k);
    moves::clear(buf, len - k, k);
}

// The file without the part's entry, and without the bytes of its chunk, none where the chunk stays.
pub fn remove_bytes(buf: &mut [u8], extent: Extent, part: Part)
    requires { Stands buf.old extent.len extent.count × (Removable buf.old extent.len extent.count part.place part.start part.size) }
    ensures { buf.new ≡ written buf.old extent.len (file (removed (model (take extent.len buf.old)) part.place)) }
{
    let gone = 12 + part.size;
    moves::move_starts(
        buf,
        24,
        extent.count,
        Move {
            limit: part.start as u32,
            behind: Step {
                up: 0,
                down: gone as u32,
            },
            others: Step { up: 0, down: 12 },
        },
    );
    shift::shift_left(buf, 36 + 12 * part.place, part.start, 12);
    shift::shift_left(buf, part.start + part.size, extent.len, gone);
    moves::clear(buf, extent.len - gone, gone);
    let rest = extent.behind() - part.size;
    moves::put_heading(buf, extent.count as u64 - 1, rest as u64);
}

// The part of `old` bytes at `at` of the first `len` gets `new` bytes.
pub fn resize(buf: &mut [u8], at: usize, len: usize, old: usize, new: usize)
    requires { (at + old ≤ len) × ((len ≤ length buf.old) × (len + (new - old) ≤ length buf.old)) }
    ensures { buf.new ≡ resized buf.old at len old new }
{
    match new.cmp(&old) {
        Ordering::Less => close_gap(buf, at + new, len, old - new),
        Ordering::Equal => {}
        Ordering::Greater => shift::shift_right(buf, at + old, len, new - old),
    }
}

// The starts behind `start` move by what the part there grows or shrinks from `old` to `new` bytes.
fn move_behind(buf: &mut [u8], count: usize, start: usize, old: usize, new: usize)
    requires { (24 + 12 * count ≤ length buf.old) × ((start < 4294967296) × ((old < 4294967296) × (new < 4294967296))) }
    ensures { buf.new ≡ starts_moved (behind start old new) count 24 buf.old }
{
    if old == new {
        return;
    }
    moves::move_starts(
        buf,
        24,
        count,
        Move {
            limit: start as u32,
            behind: Step {
                up: new as u32,
                down: old as u32,
            },
            others: Step { up: 0, down: 0 },
        },
    );
}

// The file with another chunk in the place of the part's, which is its entry's alone.
pub fn replace_bytes(buf: &mut [u8], extent: Extent, part: Part, kind: u32, d: &[u8])
    requires { Stands buf.old extent.len extent.count × (Replaceable buf.old extent.len extent.count part.place part.start part.size
        × ((extent.len - part.size + (8 + (length d.now + length d.now % 2)) ≤ length buf.old) ×
        (extent.len - part.size + (8 + (length d.now + length d.now % 2)) ≤ 16777216))) }
    ensures { buf.new ≡ written buf.old extent.len
        (file (replaced (model (take extent.len buf.old)) (ref_at (model (take extent.len buf.old)) part.place).chunk
        (chunk_of kind d.now))) }
{
    let new = chunk_size(d);
    resize(buf, part.start, extent.len, part.size, new);
    move_behind(buf, extent.count, part.start, part.size, new);
    let rest = extent.behind() - part.size + new;
    moves::put_heading(buf, extent.count as u64, rest as u64);
    moves::put_chunk(buf, part.start, kind as u64, d);
}

// The file with an entry and its chunk put into the gap.
pub fn insert_bytes(buf: &mut [u8], extent: Extent, gap: Gap, pair: Pair, kind: u32, d: &[u8])
    requires { Stands buf.old extent.len extent.count × (Insertable buf.old extent.len extent.count gap.place gap.at
        × ((extent.len + (20 + (length d.now + length d.now % 2)) ≤ length buf.old) ×
        (extent.len + (20 + (length d.now + length d.now % 2)) ≤ 16777216))) }
    ensures { buf.new ≡ written buf.old extent.len
        (file (inserted (model (take extent.len buf.old)) gap.place (place_at (model (take extent.len buf.old)) gap.at) pair.usage pair.number
        (chunk_of kind d.now))) }
{
    let size = chunk_size(d);
    let entry = 24 + 12 * gap.place;
    moves::move_starts(
        buf,
        24,
        extent.count,
        Move {
            limit: (gap.at - 1) as u32,
            behind: Step {
                up: (12 + size) as u32,
                down: 0,
            },
            others: Step { up: 12, down: 0 },
        },
    );
    shift::shift_right(buf, gap.at, extent.len, 12 + size);
    shift::shift_right(buf, entry, gap.at, 12);
    moves::put_words(
        buf,
        entry,
        pair.usage as u64,
        pair.number as u64,
        gap.at as u64 + 12,
    );
    moves::put_chunk(buf, gap.at + 12, kind as u64, d);
    let rest = extent.behind() + size;
    moves::put_heading(buf, extent.count as u64 + 1, rest as u64);
}

// The file with an entry put in. Its chunk stands.
pub fn insert_entry(buf: &mut [u8], extent: Extent, gap: Gap, pair: Pair)
    requires { Stands buf.old extent.len extent.count × (Insertable buf.old extent.len extent.count gap.place gap.at
        × ((extent.len + 12 ≤ length buf.old) × (extent.len + 12 ≤ 16777216))) }
    ensures { buf.new ≡ written buf.old extent.len
        (file (entered (model (take extent.len buf.old)) gap.place (place_at (model (take extent.len buf.old)) gap.at) pair.usage pair.number)) }
{
    let entry = 24 + 12 * gap.place;
    moves::move_starts(
        buf,
        24,
        extent.count,
        Move {
            limit: 0,
            behind: Step { up: 12, down: 0 },
            others: Step { up: 12, down: 0 },
        },
    );
    shift::shift_right(buf, entry, extent.len, 12);
    moves::put_words(
        buf,
        entry,
        pair.usage as u64,
        pair.number as u64,
        gap.at as u64 + 12,
    );
    moves::put_heading(buf, extent.count as u64 + 1, extent.behind() as u64);
}
