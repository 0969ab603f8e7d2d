// A link (02, P8): where its entry goes in, and its refusals 100 + k, told from the present file without making the new one.
#![tactic(auto)]

ghost use Rattle.std.specs.Prelude.{◌≡◌, ◌≤◌, length, ltb};
ghost use Rattle.std.specs.Bool.{then_some};
ghost use Rattle.blorb.specs.Verdict.{accept, verdict};
ghost use Rattle.blorb.specs.Refusals.{verdict_of};
ghost use Rattle.blorb.specs.Rules.{rules_of};
ghost use Rattle.blorb.specs.Model.{model, file};
ghost use Rattle.blorb.specs.Queries.{find, ref_at};
ghost use Rattle.edits.specs.Edit.{link_place_of, linked};
ghost use Rattle.edits.specs.Run.{hundred};
ghost use Rattle.linking.specs.Original.{Indexed, Original};

use blorb::{Fault, Pair, Refusal, Usage};
use reader::Piece;

// The place of a new entry on the chunk of `piece`: behind the entries that start there, which stand side by side.
pub fn link_place(s: &[u8], count: usize, piece: Piece) -> usize
    requires { Original s.now count piece }
    ensures { (result ≡ link_place_of (ref_at (model s.now) piece.place).chunk (model s.now).refs) × (result ≤ count) }
{
    let at = piece.start as u64;
    for i in piece.place + 1..count {
        if at < blorb::be32_at(s, 32 + 12 * i) {
            return i;
        }
    }
    count
}

// The place of the entry with this pair in the file `s`, if there is one.
fn find_pair(s: &[u8], count: usize, pair: Pair) -> Option<usize>
    requires { Indexed s.now count }
    ensures { result ≡ then_some (ltb (find pair.usage pair.number (model s.now).refs) (length (model s.now).refs))
        (find pair.usage pair.number (model s.now).refs) }
{
    for i in 0..count {
        let p = 24 + 12 * i;
        if (blorb::be32_at(s, p) == pair.usage as u64)
            & (blorb::be32_at(s, p + 4) == pair.number as u64)
        {
            return Some(i);
        }
    }
    None
}

// 100 + k for a link of the pair to the chunk of `piece` in the accepted file `s` with `count` entries: the new entry goes in at
// `place`. Of two entries with one pair the later is refused, and that may be the old one.
pub fn link_fault(
    s: &[u8],
    profile: u32,
    count: usize,
    piece: Piece,
    place: usize,
    pair: Pair,
) -> Result<(), Refusal>
    requires { (verdict (rules_of profile) s.now ≡ accept)
        × (Original s.now count piece × ((place ≡ link_place_of (ref_at (model s.now) piece.place).chunk (model s.now).refs) × (place ≤ count))) }
    ensures { verdict_of result ≡ hundred
        (verdict (rules_of profile) (file (linked (model s.now) (ref_at (model s.now) piece.place).chunk pair.usage pair.number))) }
{
    if 16777216 < s.len() + 12 {
        return Err(Refusal {
            fault: Fault::ResultTooLong,
            place: 0,
        });
    }
    if 4096 < count + 1 {
        return Err(Refusal {
            fault: Fault::ResultTooMany,
            place: 20,
        });
    }
    let at = 24 + 12 * place;
    if Usage::of_code(pair.usage as u64).is_none() {
        return Err(Refusal {
            fault: Fault::ResultUsage,
            place: at,
        });
    }
    if !undoing::chunk_allowed(s, profile, piece.start as usize, pair.usage) {
        return Err(Refusal {
            fault: Fault::ResultType,
            place: at,
        });
    }
    if !pair.number_fits() {
        return Err(Refusal {
            fault: Fault::ResultExecNumber,
            place: at + 4,
        });
    }
    let Some(other) = find_pair(s, count, pair) else {
        return Ok(());
    };
    if other < place {
        return Err(Refusal {
            fault: Fault::ResultRepeated,
            place: at,
        });
    }
    Err(Refusal {
        fault: Fault::ResultRepeated,
        place: 24 + 12 * (other + 1),
    })
}
