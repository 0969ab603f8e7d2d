// Refusals 100 + k, told from the present file without making the new one.
ghost use Rattle.std.specs.Prelude.{◌≡◌, ◌≤◌, ◌<◌, length};
ghost use Rattle.blorb.specs.Verdict.{accept, verdict};
ghost use Rattle.blorb.specs.Format.{chunk_of};
ghost use Rattle.blorb.specs.Refusals.{verdict_of};
ghost use Rattle.blorb.specs.Rules.{rules_of};
ghost use Rattle.blorb.specs.Model.{model, file};
ghost use Rattle.blorb.specs.Queries.{ref_at, find};
ghost use Rattle.edits.specs.Edit.{added, replaced, removed};
ghost use Rattle.edits.specs.Run.{hundred};
ghost use Rattle.edits.specs.Starts.{behind, fallen};
ghost use Rattle.reader.specs.Inspecting.{target_of, front_of};
ghost use Rattle.judging.specs.Told.{Counted, Listed, Own};

use blorb::{Fault, Pair, Refusal, Usage};
use reader::{Frontispiece, Piece};

// 100 + k for an add to the accepted file `s` with `count` entries, of which `target` has the pair.
pub fn add_fault(
    s: &[u8],
    profile: u32,
    count: usize,
    target: Option<Piece>,
    pair: Pair,
    kind: u32,
    d: &[u8],
) -> Result<(), Refusal>
    requires { (verdict (rules_of profile) s.now ≡ accept) × (Counted s.now count × (target ≡ target_of (model s.now) pair.usage pair.number)) }
    ensures { verdict_of result ≡ hundred (verdict (rules_of profile) (file (added (model s.now) pair.usage pair.number (chunk_of kind d.now)))) }
{
    let len = s.len();
    let m = d.len();
    if 16777216 < len + (20 + (m + m % 2)) {
        return Err(Refusal {
            fault: Fault::ResultTooLong,
            place: 0,
        });
    }
    if kind as u64 == blorb::RIDX {
        return Err(Refusal {
            fault: Fault::ResultSecondIndex,
            place: len + 12,
        });
    }
    if 4096 < count + 1 {
        return Err(Refusal {
            fault: Fault::ResultTooMany,
            place: 20,
        });
    }
    let at = 24 + 12 * count;
    let Some(known) = Usage::of_code(pair.usage as u64) else {
        return Err(Refusal {
            fault: Fault::ResultUsage,
            place: at,
        });
    };
    if !known.allows(profile, kind as u64, d) {
        return Err(Refusal {
            fault: Fault::ResultType,
            place: at,
        });
    }
    if !pair.number_fits() {
        return Err(Refusal {
            fault: Fault::ResultExecNumber,
            place: at + 4,
        });
    }
    match target {
        Some(_) => Err(Refusal {
            fault: Fault::ResultRepeated,
            place: at,
        }),
        None => Ok(()),
    }
}

// Where a start goes when an entry goes, and with it `size` bytes at `start`.
fn fallen_start(at: u32, start: u32, size: u32) -> u32
    requires { size ≤ 16777216 }
    ensures { result ≡ fallen start size at }
{
    if start < at {
        return at.saturating_sub(12 + size);
    }
    at.saturating_sub(12)
}

// 100 + k for a removal of the entry with this pair in the accepted file `s` with this frontispiece: the entry's chunk at
// `start` loses `size` bytes.
pub fn remove_fault(
    s: &[u8],
    profile: u32,
    front: Option<Frontispiece>,
    pair: Pair,
    start: u32,
    size: u32,
) -> Result<(), Refusal>
    requires { (verdict (rules_of profile) s.now ≡ accept) × (Listed s.now pair.usage pair.number start size × (front ≡ front_of (model s.now))) }
    ensures { verdict_of result ≡ hundred
        (verdict (rules_of profile) (file (removed (model s.now) (find pair.usage pair.number (model s.now).refs)))) }
{
    let Some(front) = front else {
        return Ok(());
    };
    if pair.is_picture(front.number) {
        let place = fallen_start(front.start, start, size) as usize + 8;
        return Err(Refusal {
            fault: Fault::ResultFrontispiece,
            place,
        });
    }
    Ok(())
}

// Where a start goes when the chunk of `old` bytes at `start` gets `new` bytes.
fn behind_start(at: u32, start: u32, old: u32, new: u32) -> u64
    ensures { (result ≡ behind start old new at) × (result < 8589934592) }
{
    if start < at {
        return (at as u64 + new as u64).saturating_sub(old as u64);
    }
    at as u64
}

// 100 + k for a replacement in the accepted file `s` with this frontispiece: `piece` is the entry's own chunk.
pub fn replace_fault(
    s: &[u8],
    profile: u32,
    front: Option<Frontispiece>,
    piece: Piece,
    pair: Pair,
    kind: u32,
    d: &[u8],
) -> Result<(), Refusal>
    requires { (verdict (rules_of profile) s.now ≡ accept) × (Own s.now pair.usage pair.number piece × (front ≡ front_of (model s.now))) }
    ensures { verdict_of result ≡ hundred
        (verdict (rules_of profile) (file (replaced (model s.now)
        (ref_at (model s.now) (find pair.usage pair.number (model s.now).refs)).chunk (chunk_of kind d.now)))) }
{
    let len = s.len();
    let m = d.len();
    let old = 8 + (piece.length + piece.length % 2);
    let new = 8 + (m + m % 2);
    if 16777216 < len - old as usize + new {
        return Err(Refusal {
            fault: Fault::ResultTooLong,
            place: 0,
        });
    }
    if kind as u64 == blorb::RIDX {
        return Err(Refusal {
            fault: Fault::ResultSecondIndex,
            place: piece.start as usize,
        });
    }
    if !blorb::type_allowed(profile, pair.usage as u64, kind as u64, d) {
        return Err(Refusal {
            fault: Fault::ResultType,
            place: 24 + 12 * piece.place,
        });
    }
    let Some(front) = front else {
        return Ok(());
    };
    if pair.is_picture(front.number) & (kind as u64 == blorb::RECT) {
        let place = behind_start(front.start, piece.start, old, new as u32) as usize + 8;
        return Err(Refusal {
            fault: Fault::ResultFrontispiece,
            place,
        });
    }
    Ok(())
}
