// Bytes written and moved within one lent buffer.
#![tactic(auto)]

ghost use Rattle.std.specs.Prelude.{◌≡◌, ◌+◌, ◌-◌, ◌*◌, ◌%◌, ◌≤◌, ◌<◌, [], ◌∷◌, ◌++◌, length, replicate};
ghost use Rattle.blorb.specs.Bytes.{be32};
ghost use Rattle.edits.specs.Run.{noted};
ghost use Rattle.blorb.specs.Format.{chunk_bytes, chunk_of};
ghost use Rattle.blorb.specs.Layout.{heading};
ghost use Rattle.edits.specs.Journal.{rec_bytes};
ghost use Rattle.moves.specs.Moves.{relocated, starts_moved, record_of};

pub mod shift;

use blorb::Pair;

// How far a start moves: up, then down, at most to 0.
#[derive(Clone, Copy)]
pub struct Step {
    pub up: u32,
    pub down: u32,
}

impl Step {
    fn moved(self, t: u64) -> u64
        requires { t < 4294967296 }
        ensures { result ≡ t + self.up - self.down }
    {
        (t + self.up as u64).saturating_sub(self.down as u64)
    }
}

// How starts move: one behind `limit` by a step of its own.
#[derive(Clone, Copy)]
pub struct Move {
    pub limit: u32,
    pub behind: Step,
    pub others: Step,
}

// An index entry as a record keeps it.
#[derive(Clone, Copy)]
pub struct Entry {
    pub pair: Pair,
    pub start: u32,
}

// The four lowest bytes of `v` at `at`, the highest first.
pub fn put32(buf: &mut [u8], at: usize, v: u64)
    requires { at + 4 ≤ length buf.old }
    ensures { buf.new ≡ noted buf.old at (be32 v) }
{
    let low = (v % 0x1_0000_0000) as u32;
    buf[at..at + 4].copy_from_slice(&low.to_be_bytes());
}

// The data at `at`. Its code is some 300 bytes, so it stands once.
#[inline(never)]
pub fn copy_in(buf: &mut [u8], at: usize, d: &[u8])
    requires { at + length d.now ≤ length buf.old }
    ensures { buf.new ≡ noted buf.old at d.now }
{
    buf[at..at + d.len()].copy_from_slice(d);
}

// Zeros from `at`, `n` of them.
pub fn clear(buf: &mut [u8], at: usize, n: usize)
    requires { at + n ≤ length buf.old }
    ensures { buf.new ≡ noted buf.old at (replicate n 0) }
{
    buf[at..at + n].fill(0);
}

impl Move {
    pub fn start(self, t: u64) -> u64
        requires { t < 4294967296 }
        ensures { result ≡ relocated self t }
    {
        if (self.limit as u64) < t {
            return self.behind.moved(t);
        }
        self.others.moved(t)
    }
}

// The starts of the `n` entries from `at` on move. By their places: `chunks_exact_mut` says nothing of the buffer after the loop.
pub fn move_starts(buf: &mut [u8], at: usize, n: usize, m: Move)
    requires { at + 12 * n ≤ length buf.old }
    ensures { buf.new ≡ starts_moved (relocated m) n at buf.old }
{
    for i in 0..n {
        let start = at + 12 * i + 8;
        let t = blorb::be32_at(buf, start);
        put32(buf, start, m.start(t));
    }
}

// A byte at `at`.
pub fn put8(buf: &mut [u8], at: usize, v: u8)
    requires { at < length buf.old }
    ensures { buf.new ≡ noted buf.old at (v ∷ []) }
{
    buf[at] = v;
}

// Three numbers at `at`.
pub fn put_words(buf: &mut [u8], at: usize, a: u64, b: u64, c: u64)
    requires { at + 12 ≤ length buf.old }
    ensures { buf.new ≡ noted buf.old at (be32 a ++ (be32 b ++ be32 c)) }
{
    put32(buf, at, a);
    put32(buf, at + 4, b);
    put32(buf, at + 8, c);
}

// The 24 bytes before the entries, of a file with `n` entries and `t` bytes of chunks behind the index.
pub fn put_heading(buf: &mut [u8], n: u64, t: u64)
    requires { (24 ≤ length buf.old) × ((n < 4294967296) × (t < 4294967296)) }
    ensures { buf.new ≡ noted buf.old 0 (heading n t) }
{
    put_words(buf, 0, blorb::FORM, 16 + 12 * n + t, blorb::IFRS);
    put_words(buf, 12, blorb::RIDX, 4 + 12 * n, n);
}

// A chunk at `at`: type, length, data and, where the length is odd, a zero byte.
pub fn put_chunk(buf: &mut [u8], at: usize, kind: u64, d: &[u8])
    requires { at + (8 + (length d.now + length d.now % 2)) ≤ length buf.old }
    ensures { buf.new ≡ noted buf.old at (chunk_bytes (chunk_of kind d.now)) }
{
    let m = d.len();
    put32(buf, at, kind);
    put32(buf, at + 4, m as u64);
    copy_in(buf, at + 8, d);
    clear(buf, at + 8 + m, m % 2);
}

// A journal record at `at`.
pub fn put_record(jrn: &mut [u8], at: usize, kind: u8, e: Entry, place: u64, t: u64, d: &[u8])
    requires { at + (29 + length d.now) ≤ length jrn.old }
    ensures { jrn.new ≡ noted jrn.old at (rec_bytes (record_of kind e place t d.now)) }
{
    let m = d.len();
    put8(jrn, at, kind);
    put_words(
        jrn,
        at + 1,
        e.pair.usage as u64,
        e.pair.number as u64,
        place,
    );
    put_words(jrn, at + 13, e.start as u64, t, m as u64);
    copy_in(jrn, at + 25, d);
    put32(jrn, at + 25 + m, 25 + m as u64);
}
