// Refusals 17 to 19: the optional chunks 'RelN' and 'Fspc'.
ghost use Rattle.std.specs.Prelude.{◌≡◌, ◌+◌, ◌≤◌, ◌<◌, length, drop, eqb, ◌||◌};
ghost use Rattle.blorb.specs.Bytes.{rd32};
ghost use Rattle.blorb.specs.Verdict.{accept, check};
ghost use Rattle.chunks.specs.Walk.{chunk_from, walk_from};
ghost use Rattle.blorb.specs.Refusals.{verdict_of};
ghost use Rattle.index.specs.Optional.{pictured, single_by, one_rule, optional_fault, EntriesPassed};

use crate::entries::find;
use blorb::{Fault, Refusal, Usage};

// Refusals 17 and 18 of an optional chunk at `at`: the first of its type, unless one stands `before`, with `right` bytes of data.
fn single(s: &[u8], before: bool, right: u64, at: usize) -> Result<(), Refusal>
    requires { (at < length s.now) × (walk_from s.now at ≡ accept) }
    ensures { verdict_of result ≡ single_by before right at (chunk_from s.now at) }
{
    if before {
        return Err(Refusal {
            fault: Fault::SecondOptional,
            place: at,
        });
    }
    if blorb::be32_at(s, at + 4) != right {
        return Err(Refusal {
            fault: Fault::OptionalLength,
            place: at + 4,
        });
    }
    Ok(())
}

// Refusal 19 of the frontispiece at `at`: its picture is in the index, and no 'Rect'.
fn frontispiece(s: &[u8], count: usize, at: usize) -> Result<(), Refusal>
    requires { EntriesPassed s.now count × (at + 12 ≤ length s.now) }
    ensures { verdict_of result ≡ check (pictured s.now count (rd32 (drop (at + 8) s.now))) 19 (at + 8) }
{
    let Some(start) = find(s, count, Usage::PICT, blorb::be32_at(s, at + 8)) else {
        return Err(Refusal {
            fault: Fault::Frontispiece,
            place: at + 8,
        });
    };
    if blorb::be32_at(s, start) == blorb::RECT {
        return Err(Refusal {
            fault: Fault::Frontispiece,
            place: at + 8,
        });
    }
    Ok(())
}

// Refusals 17 to 19 of the chunk at `at`; `reln` and `fspc` tell whether a 'RelN' and an 'Fspc' stand before it.
fn optional_chunk(s: &[u8], count: usize, reln: bool, fspc: bool, at: usize) -> Result<(), Refusal>
    requires { EntriesPassed s.now count × (at < length s.now) × (walk_from s.now at ≡ accept) }
    ensures { verdict_of result ≡ one_rule (pictured s.now count) reln fspc at (chunk_from s.now at) }
{
    let t = blorb::be32_at(s, at);
    if t == blorb::RELN {
        return single(s, reln, 2, at);
    }
    if t != blorb::FSPC {
        return Ok(());
    }
    single(s, fspc, 4, at)?;
    frontispiece(s, count, at)
}

// Refusals 17 to 19: the optional chunks, by file position.
pub fn optional(s: &[u8], count: usize) -> Result<(), Refusal>
    requires { EntriesPassed s.now count }
    ensures { verdict_of result ≡ optional_fault s.now count }
{
    let mut at = 24 + 12 * count;
    let mut reln = false;
    let mut fspc = false;
    while at < s.len() {
        optional_chunk(s, count, reln, fspc, at)?;
        let t = blorb::be32_at(s, at);
        reln |= t == blorb::RELN;
        fspc |= t == blorb::FSPC;
        at = chunks::skip(s, at);
    }
    Ok(())
}
