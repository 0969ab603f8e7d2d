// The chunks of an IFF file: the header of a Blorb file, the walk over chunks, and the chunk at a start.
#![tactic(auto)]

ghost use Rattle.std.specs.Prelude.{◌≡◌, ◌+◌, ◌≤◌, ◌<◌, length, drop, true, false};
ghost use Rattle.chunks.specs.Ordinary.{ordinary_type, all_ordinary, Walks};
ghost use Rattle.blorb.specs.Verdict.{accept, head_fault, chunk_fault, second_index};
ghost use Rattle.blorb.specs.Format.{is_start};
ghost use Rattle.blorb.specs.Refusals.{verdict_of};
ghost use Rattle.chunks.specs.Walk.{skip_at, chunks_from, walk_from, first_fault};

use blorb::{Fault, Refusal};

// Refusals 1 to 5: the file's length and its header.
pub fn head(s: &[u8]) -> Result<(), Refusal>
    ensures { verdict_of result ≡ head_fault s.now }
{
    if 16777216 < s.len() {
        return Err(Refusal {
            fault: Fault::TooLong,
            place: 0,
        });
    }
    if s.len() < 12 {
        return Err(Refusal {
            fault: Fault::TooShort,
            place: 0,
        });
    }
    if blorb::be32_at(s, 0) != blorb::FORM {
        return Err(Refusal {
            fault: Fault::NoForm,
            place: 0,
        });
    }
    if blorb::be32_at(s, 8) != blorb::IFRS {
        return Err(Refusal {
            fault: Fault::NoIfrs,
            place: 8,
        });
    }
    if 8 + blorb::be32_at(s, 4) as usize != s.len() {
        return Err(Refusal {
            fault: Fault::FormLength,
            place: 4,
        });
    }
    Ok(())
}

// Refusals 6, 28, 29 and 7 of the chunk at `at`.
pub fn chunk(s: &[u8], at: usize) -> Result<(), Refusal>
    requires { at < length s.now }
    ensures { verdict_of result ≡ chunk_fault at (drop at s.now) }
{
    if s.len() - at < 8 {
        return Err(Refusal {
            fault: Fault::ChunkCut,
            place: at,
        });
    }
    let field = at + 4;
    let m = blorb::be32_at(s, field) as usize;
    let end = at + (8 + m);
    if s.len() < end {
        return Err(Refusal {
            fault: Fault::ChunkLength,
            place: field,
        });
    }
    if m % 2 == 0 {
        return Ok(());
    }
    if s.len() <= end {
        return Err(Refusal {
            fault: Fault::NoPadding,
            place: s.len(),
        });
    }
    if s[end] == 0 {
        return Ok(());
    }
    Err(Refusal {
        fault: Fault::Padding,
        place: end,
    })
}

// Where the chunk behind the one at `at` begins.
pub fn skip(s: &[u8], at: usize) -> usize
    requires { at + 8 ≤ length s.now }
    ensures { result ≡ skip_at s.now at }
{
    let m = blorb::be32_at(s, at + 4) as usize;
    at + (8 + (m + m % 2))
}

pub fn is_ordinary(t: u64) -> bool
    ensures { result ≡ ordinary_type t }
{
    !matches!(t, blorb::RIDX | blorb::RELN | blorb::FSPC)
}

// Refusals 6, 28, 29 and 7: the walk over the chunks from `from` on. True only where no chunk walked is an index, a 'RelN' or an 'Fspc'.
fn walk_rest(s: &[u8], from: usize) -> Result<bool, Refusal>
    ensures { Walks result s.now from from }
{
    let mut at = from;
    let mut ordinary = true;
    while at < s.len() {
        chunk(s, at)?;
        ordinary &= is_ordinary(blorb::be32_at(s, at));
        at = skip(s, at);
    }
    Ok(ordinary)
}

// Refusals 6, 28, 29 and 7: the walk over all chunks. True only where no chunk behind the first is an index, a 'RelN' or an 'Fspc'.
pub fn walk(s: &[u8]) -> Result<bool, Refusal>
    ensures { Walks result s.now 12 (skip_at s.now 12) }
{
    if s.len() <= 12 {
        return Ok(false);
    }
    chunk(s, 12)?;
    walk_rest(s, skip(s, 12))
}

// Refusal 8, unless the first chunk is the index.
pub fn first(s: &[u8]) -> Result<(), Refusal>
    requires { walk_from s.now 12 ≡ accept }
    ensures { verdict_of result ≡ first_fault s.now }
{
    if s.len() <= 12 {
        return Err(Refusal {
            fault: Fault::NoIndex,
            place: 12,
        });
    }
    if blorb::be32_at(s, 12) != blorb::RIDX {
        return Err(Refusal {
            fault: Fault::NoIndex,
            place: 12,
        });
    }
    Ok(())
}

// Refusal 9, unless no chunk from `from` on is an index.
pub fn second(s: &[u8], from: usize) -> Result<(), Refusal>
    requires { walk_from s.now from ≡ accept }
    ensures { verdict_of result ≡ second_index from (chunks_from s.now from) }
{
    let mut at = from;
    while at < s.len() {
        if blorb::be32_at(s, at) == blorb::RIDX {
            return Err(Refusal {
                fault: Fault::SecondIndex,
                place: at,
            });
        }
        at = skip(s, at);
    }
    Ok(())
}

// The same, where it may be known that there is none.
pub fn second_if(ordinary: bool, s: &[u8], from: usize) -> Result<(), Refusal>
    requires { (walk_from s.now from ≡ accept) × (ordinary ≡ true → all_ordinary (chunks_from s.now from) ≡ true) }
    ensures { verdict_of result ≡ second_index from (chunks_from s.now from) }
{
    if ordinary {
        return Ok(());
    }
    second(s, from)
}

// Whether a chunk from `from` on begins at `start`.
pub fn begins(s: &[u8], from: usize, start: usize) -> bool
    requires { walk_from s.now from ≡ accept }
    ensures { result ≡ is_start start from (chunks_from s.now from) }
{
    if s.len() <= start {
        return false;
    }
    let mut at = from;
    while at < start {
        at = skip(s, at);
    }
    at == start
}
