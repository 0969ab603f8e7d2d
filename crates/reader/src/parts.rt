// The parts of an inspection: what an accepted file tells of an entry, of its frontispiece and of an offset.
ghost use Rattle.std.specs.Prelude.{◌≡◌, ◌≤◌, ◌<◌, length, drop, true};
ghost use Rattle.blorb.specs.Verdict.{accept};
ghost use Rattle.blorb.specs.Format.{entries_in, is_start};
ghost use Rattle.chunks.specs.Ordinary.{all_ordinary};
ghost use Rattle.chunks.specs.Walk.{chunks_from, walk_from};
ghost use Rattle.index.specs.Entries.{place, start_at, start_again_of};
ghost use Rattle.reader.specs.Inspecting.{piece_of, target_of, front_of, facts_of};
ghost use Rattle.reader.specs.Passed.{Passed, model_at, Fronts, front_from_of};

use crate::{Facts, Frontispiece, Judged, Piece};
use index::entries;

// `Passed` stays a requires: it keeps the rules that the entries were judged by, so it is no proposition, as a ghost field has to be.

// Whether an entry other than entry `i` has its start. Entries stand in the order of their chunks, so it would stand beside it.
fn start_again(s: &[u8], count: usize, i: usize, start: u64) -> bool
    requires { Passed s.now count × (i < count) × (start ≡ start_at s.now (place i)) }
    ensures { result ≡ start_again_of start i 0 (entries_in count (drop 24 s.now)) }
{
    if i + 1 < count {
        if blorb::be32_at(s, 24 + 12 * (i + 1) + 8) == start {
            return true;
        }
    }
    if i == 0 {
        return false;
    }
    blorb::be32_at(s, 24 + 12 * (i - 1) + 8) == start
}

// Entry `i` and its chunk.
fn piece(s: &[u8], count: usize, i: usize) -> Piece
    requires { Passed s.now count × (i < count) }
    ensures { result ≡ piece_of (model_at s.now count) i }
{
    let start = blorb::be32_at(s, 24 + 12 * i + 8);
    let at = start as usize;
    Piece {
        place: i,
        start: start as u32,
        kind: blorb::be32_at(s, at) as u32,
        length: blorb::be32_at(s, at + 4) as u32,
        shared: start_again(s, count, i, start),
    }
}

// The chunk of the entry (code, number).
fn target(s: &[u8], count: usize, code: u64, number: u64) -> Option<Piece>
    requires { Passed s.now count }
    ensures { result ≡ target_of (model_at s.now count) code number }
{
    let i = entries::find_place(s, count, code, number)?;
    Some(piece(s, count, i))
}

// The first frontispiece among the chunks from `from` on.
fn front_from(s: &[u8], from: usize) -> Option<Frontispiece>
    requires { (length s.now ≤ 16777216) × (walk_from s.now from ≡ accept) × Fronts (chunks_from s.now from) }
    ensures { result ≡ front_from_of from (chunks_from s.now from) }
{
    let mut at = from;
    while at < s.len() {
        if blorb::be32_at(s, at) == blorb::FSPC {
            return Some(Frontispiece {
                start: at as u32,
                number: blorb::be32_at(s, at + 8) as u32,
            });
        }
        at = chunks::skip(s, at);
    }
    None
}

// The frontispiece, where it may be known that there is none.
fn front_if(ordinary: bool, s: &[u8], count: usize) -> Option<Frontispiece>
    requires { Passed s.now count × (ordinary ≡ true → all_ordinary (chunks_from s.now (place count)) ≡ true) }
    ensures { result ≡ front_of (model_at s.now count) }
{
    if ordinary {
        return None;
    }
    front_from(s, 24 + 12 * count)
}

// Whether a chunk begins at `at`; those behind the index stand from `base` on.
fn begins_at(s: &[u8], base: usize, at: usize) -> bool
    requires { walk_from s.now base ≡ accept }
    ensures { result ≡ is_start at base (chunks_from s.now base) }
{
    if at < base {
        return false;
    }
    chunks::begins(s, base, at)
}

// All that an accepted file tells.
pub(crate) fn facts(s: &[u8], judged: Judged, code: u64, number: u64, at: usize) -> Facts
    requires { Passed s.now judged.count × (judged.ordinary ≡ true → all_ordinary (chunks_from s.now (place judged.count)) ≡ true) }
    ensures { result ≡ facts_of (model_at s.now judged.count) code number at }
{
    Facts {
        count: judged.count,
        target: target(s, judged.count, code, number),
        front: front_if(judged.ordinary, s, judged.count),
        begins: begins_at(s, 24 + 12 * judged.count, at),
    }
}
