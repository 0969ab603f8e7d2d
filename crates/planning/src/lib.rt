// What add, replace, remove and link are refused for, told from the present file: all that an edit does before it writes.
#![tactic(auto)]

ghost use Rattle.std.specs.Prelude.{◌≡◌, ◌+◌, ◌%◌, ◌≤◌, cond, ◌&&◌, length, take, leb};
ghost use Rattle.blorb.specs.Refusals.{verdict_of, answer_by};
ghost use Rattle.blorb.specs.Verdict.{◌then◌, check, verdict};
ghost use Rattle.blorb.specs.Rules.{rules_of};
ghost use Rattle.blorb.specs.Model.{model};
ghost use Rattle.edits.specs.Edit.{add, replace, remove, link};
ghost use Rattle.reader.specs.Inspecting.{inspection_of};
ghost use Rattle.undoing.specs.Kinds.{number_of};
ghost use Rattle.planning.specs.Plans.{edit_refusal, owned_of, joining_of};

pub mod given;

use blorb::{Fault, Pair, Refusal};
use judging::judge;
use reader::{Facts, Piece};
use undoing::journal::Kind;

// What a call is lent besides the file's buffer: the file is its first `len` bytes, and `used` of the journal's `room` bytes are in use.
#[derive(Clone, Copy)]
pub struct Lent {
    pub len: usize,
    pub room: usize,
    pub used: usize,
    pub profile: u32,
}

// 52, 20 and the reader's refusals; else what the file tells.
fn opened(buf: &[u8], lent: Lent, pair: Pair) -> Result<Facts, Refusal>
    ensures { result ≡ inspection_of (check (leb lent.profile 1) 52 0 then check (leb lent.len (length buf.now) && leb lent.used lent.room) 20 0 then
        verdict (rules_of lent.profile) (take lent.len buf.now)) (model (take lent.len buf.now)) pair.usage pair.number 0 }
{
    if 1 < lent.profile {
        return Err(Refusal {
            fault: Fault::Profile,
            place: 0,
        });
    }
    if buf.len() < lent.len {
        return Err(Refusal {
            fault: Fault::Lengths,
            place: 0,
        });
    }
    if lent.room < lent.used {
        return Err(Refusal {
            fault: Fault::Lengths,
            place: 0,
        });
    }
    reader::inspect(&buf[..lent.len], lent.profile, pair.usage, pair.number, 0)
}

// 24 and 25: a new file of `size` bytes in a buffer of `room`, a record of `more` bytes where `left` are left.
fn with_room(size: usize, room: usize, more: usize, left: usize) -> Result<(), Refusal>
    ensures { verdict_of result ≡ check (leb size room) 24 0 then check (leb more left) 25 0 }
{
    if room < size {
        return Err(Refusal {
            fault: Fault::FileRoom,
            place: 0,
        });
    }
    if left < more {
        return Err(Refusal {
            fault: Fault::JournalRoom,
            place: 0,
        });
    }
    Ok(())
}

// An add's refusal, or the number of entries that it goes on with.
pub fn add_plan(buf: &[u8], lent: Lent, pair: Pair, kind: u32, d: &[u8]) -> Result<usize, Refusal>
    ensures { result ≡ answer_by (edit_refusal lent.profile (length buf.now) lent.room (take lent.len buf.now) lent.len lent.used
        (add pair.usage pair.number kind d.now)) (length (model (take lent.len buf.now)).refs) }
{
    let facts = opened(buf, lent, pair)?;
    if !given::is_whole(kind, d) {
        return Err(Refusal {
            fault: Fault::WholeForm,
            place: 0,
        });
    }
    let body = given::held(kind, d);
    let s = &buf[..lent.len];
    judge::add_fault(s, lent.profile, facts.count, facts.target, pair, kind, body)?;
    let m = body.len();
    let size = lent.len + (20 + (m + m % 2));
    with_room(size, buf.len(), 29, lent.room - lent.used)?;
    Ok(facts.count)
}

// What a removal or a replacement goes on with: the file has `count` entries, and the entry's chunk is `piece`.
#[derive(Clone, Copy)]
pub struct Owned {
    pub count: usize,
    pub piece: Piece,
}

// What goes of a chunk with `m` data bytes: nothing of a shared one.
pub fn gone_size(shared: bool, m: u32) -> u32
    requires { m ≤ 16777216 }
    ensures { result ≡ cond shared 0 (8 + (m + m % 2)) }
{
    if shared {
        return 0;
    }
    8 + (m + m % 2)
}

// A number of a chunk that a removal's record keeps: 0 for a shared one.
pub fn kept_number(shared: bool, x: u32) -> u32
    ensures { result ≡ cond shared 0 x }
{
    if shared {
        return 0;
    }
    x
}

// What a removal does.
pub fn removal_kind(shared: bool) -> Kind
    ensures { number_of result ≡ cond shared 4 3 }
{
    if shared {
        return Kind::Unlisted;
    }
    Kind::Removed
}

// A removal's refusal, or what it needs to be made.
pub fn remove_plan(buf: &[u8], lent: Lent, pair: Pair) -> Result<Owned, Refusal>
    ensures { result ≡ answer_by (edit_refusal lent.profile (length buf.now) lent.room (take lent.len buf.now) lent.len lent.used
        (remove pair.usage pair.number)) (owned_of (model (take lent.len buf.now)) pair.usage pair.number) }
{
    let facts = opened(buf, lent, pair)?;
    let Some(piece) = facts.target else {
        return Err(Refusal {
            fault: Fault::NotThere,
            place: 0,
        });
    };
    let size = gone_size(piece.shared, piece.length);
    let body = kept_number(piece.shared, piece.length) as usize;
    let s = &buf[..lent.len];
    judge::remove_fault(s, lent.profile, facts.front, pair, piece.start, size)?;
    let size = lent.len - (12 + size as usize);
    with_room(size, buf.len(), 29 + body, lent.room - lent.used)?;
    Ok(Owned {
        count: facts.count,
        piece,
    })
}

// A replacement's refusal, or what it needs to be made.
pub fn replace_plan(
    buf: &[u8],
    lent: Lent,
    pair: Pair,
    kind: u32,
    d: &[u8],
) -> Result<Owned, Refusal>
    ensures { result ≡ answer_by (edit_refusal lent.profile (length buf.now) lent.room (take lent.len buf.now) lent.len lent.used
        (replace pair.usage pair.number kind d.now)) (owned_of (model (take lent.len buf.now)) pair.usage pair.number) }
{
    let facts = opened(buf, lent, pair)?;
    let Some(piece) = facts.target else {
        return Err(Refusal {
            fault: Fault::NotThere,
            place: 0,
        });
    };
    let whole = given::is_whole(kind, d);
    if piece.shared {
        return Err(Refusal {
            fault: Fault::Shared,
            place: 0,
        });
    }
    if !whole {
        return Err(Refusal {
            fault: Fault::WholeForm,
            place: 0,
        });
    }
    let body = given::held(kind, d);
    let old = gone_size(false, piece.length) as usize;
    let s = &buf[..lent.len];
    judge::replace_fault(s, lent.profile, facts.front, piece, pair, kind, body)?;
    let m = body.len();
    let size = lent.len - old + (8 + (m + m % 2));
    let more = 29 + piece.length as usize;
    with_room(size, buf.len(), more, lent.room - lent.used)?;
    Ok(Owned {
        count: facts.count,
        piece,
    })
}

// What a link goes on with: the file has `count` entries, the new one goes in at `place`, and the original's chunk starts at `at`.
#[derive(Clone, Copy)]
pub struct Joining {
    pub count: usize,
    pub place: usize,
    pub at: u32,
}

// A link's refusal, or what it needs to be made.
pub fn link_plan(buf: &[u8], lent: Lent, original: Pair, alias: Pair) -> Result<Joining, Refusal>
    ensures { result ≡ answer_by (edit_refusal lent.profile (length buf.now) lent.room (take lent.len buf.now) lent.len lent.used
        (link original.usage original.number alias.usage alias.number)) (joining_of (model (take lent.len buf.now)) original.usage original.number) }
{
    let facts = opened(buf, lent, original)?;
    let Some(piece) = facts.target else {
        return Err(Refusal {
            fault: Fault::NotThere,
            place: 0,
        });
    };
    let count = facts.count;
    let s = &buf[..lent.len];
    let place = linking::link_place(s, count, piece);
    linking::link_fault(s, lent.profile, count, piece, place, alias)?;
    with_room(lent.len + 12, buf.len(), 29, lent.room - lent.used)?;
    Ok(Joining {
        count,
        place,
        at: piece.start,
    })
}
