// The editor: edits and undo in place.
#![tactic(auto)]

ghost use Rattle.std.specs.Prelude.{◌≡◌, ℕ, length, take, leb};
ghost use Rattle.blorb.specs.Bytes.{rd32};
ghost use Rattle.edits.specs.Edit.{add, replace, remove, link};
ghost use Rattle.edits.specs.Run.{edit, undo};
ghost use Rattle.edits.specs.Run.{written, undone_file};
ghost use Rattle.std.specs.Prelude.{Ok};
ghost use Rattle.undoing.specs.UndoPlan.{undo_plan_of};
ghost use Rattle.edits.specs.Blank.{blanked};
ghost use Rattle.edits.specs.Run.{state};
ghost use Rattle.editor.specs.Called.{Called, blank_answer};
ghost use Rattle.editor.specs.Post.{answered_with};

use blorb::{Fault, Pair, Refusal};
use planning::{Lent, given};
use rewrite::{Extent, Gap, Part};
use undoing::Undoing;
use undoing::journal::Kind;

#[derive(Clone, Copy)]
pub struct Answer {
    pub outcome: Result<(), Refusal>,
    pub len: usize,
    pub used: usize,
}

impl Answer {
    // A call that was made answers with the lengths after it, a refused one gives back those that it was given.
    fn new(made: Result<Session, Refusal>, len: usize, used: usize) -> Answer
        ensures { result ≡ answered_with made len used }
    {
        match made {
            Ok(after) => Answer {
                outcome: Ok(()),
                len: after.len,
                used: after.used,
            },
            Err(refusal) => Answer {
                outcome: Err(refusal),
                len,
                used,
            },
        }
    }
}

// Add, with usage and type as numbers.
fn add_entry(
    buf: &mut [u8],
    len: usize,
    jrn: &mut [u8],
    used: usize,
    profile: u32,
    pair: Pair,
    kind: u32,
    d: &[u8],
) -> Result<Session, Refusal>
    ensures { Called profile (state buf.old len jrn.old used) (edit (add pair.usage pair.number kind d.now)) (answered_with result len used)
        buf.new jrn.new }
{
    let lent = Lent {
        len,
        room: jrn.len(),
        used,
        profile,
    };
    let count = planning::add_plan(buf, lent, pair, kind, d)?;
    let body = given::held(kind, d);
    let m = body.len();
    rewrite::add_bytes(buf, Extent { len, count }, pair, kind, body);
    moves::put_record(
        jrn,
        used,
        Kind::Added as u8,
        moves::Entry { pair, start: 0 },
        count as u64,
        0,
        &d[0..0],
    );
    Ok(Session {
        len: len + (20 + (m + m % 2)),
        used: used + 29,
    })
}

// Remove, with the usage as a number.
fn remove_entry(
    buf: &mut [u8],
    len: usize,
    jrn: &mut [u8],
    used: usize,
    profile: u32,
    pair: Pair,
) -> Result<Session, Refusal>
    ensures { Called profile (state buf.old len jrn.old used) (edit (remove pair.usage pair.number)) (answered_with result len used)
        buf.new jrn.new }
{
    let lent = Lent {
        len,
        room: jrn.len(),
        used,
        profile,
    };
    let plan = planning::remove_plan(buf, lent, pair)?;
    let piece = plan.piece;
    let start = piece.start;
    let size = planning::gone_size(piece.shared, piece.length) as usize;
    let body = planning::kept_number(piece.shared, piece.length) as usize;
    let from = start as usize + 8;
    let to = from + body;
    moves::put_record(
        jrn,
        used,
        planning::removal_kind(piece.shared).number(),
        moves::Entry { pair, start },
        piece.place as u64,
        planning::kept_number(piece.shared, piece.kind) as u64,
        &buf[from..to],
    );
    let extent = Extent {
        len,
        count: plan.count,
    };
    let part = Part {
        place: piece.place,
        start: start as usize,
        size,
    };
    rewrite::remove_bytes(buf, extent, part);
    Ok(Session {
        len: len - (12 + size),
        used: used + (29 + body),
    })
}

// Replace, with usage and type as numbers.
fn replace_chunk(
    buf: &mut [u8],
    len: usize,
    jrn: &mut [u8],
    used: usize,
    profile: u32,
    pair: Pair,
    kind: u32,
    d: &[u8],
) -> Result<Session, Refusal>
    ensures { Called profile (state buf.old len jrn.old used) (edit (replace pair.usage pair.number kind d.now)) (answered_with result len used)
        buf.new jrn.new }
{
    let lent = Lent {
        len,
        room: jrn.len(),
        used,
        profile,
    };
    let plan = planning::replace_plan(buf, lent, pair, kind, d)?;
    let piece = plan.piece;
    let start = piece.start;
    let old = planning::gone_size(false, piece.length) as usize;
    let body = given::held(kind, d);
    let m = body.len();
    let from = start as usize + 8;
    let to = from + piece.length as usize;
    moves::put_record(
        jrn,
        used,
        Kind::Replaced as u8,
        moves::Entry { pair, start },
        piece.place as u64,
        piece.kind as u64,
        &buf[from..to],
    );
    let extent = Extent {
        len,
        count: plan.count,
    };
    let part = Part {
        place: piece.place,
        start: start as usize,
        size: old,
    };
    rewrite::replace_bytes(buf, extent, part, kind, body);
    Ok(Session {
        len: len - old + (8 + (m + m % 2)),
        used: used + (29 + piece.length as usize),
    })
}

// Link, with the usages as numbers.
fn link_entry(
    buf: &mut [u8],
    len: usize,
    jrn: &mut [u8],
    used: usize,
    profile: u32,
    original: Pair,
    alias: Pair,
) -> Result<Session, Refusal>
    ensures { Called profile (state buf.old len jrn.old used) (edit (link original.usage original.number alias.usage alias.number))
        (answered_with result len used) buf.new jrn.new }
{
    let lent = Lent {
        len,
        room: jrn.len(),
        used,
        profile,
    };
    let plan = planning::link_plan(buf, lent, original, alias)?;
    moves::put_record(
        jrn,
        used,
        Kind::Linked as u8,
        moves::Entry {
            pair: alias,
            start: plan.at + 12,
        },
        plan.place as u64,
        0,
        &buf[0..0],
    );
    let extent = Extent {
        len,
        count: plan.count,
    };
    let gap = Gap {
        place: plan.place,
        at: plan.at as usize,
    };
    rewrite::insert_entry(buf, extent, gap, alias);
    Ok(Session {
        len: len + 12,
        used: used + 29,
    })
}

// Four bytes as the number in them.
fn code_of(b: [u8; 4]) -> u32
    ensures { result ≡ rd32 b }
{
    u32::from_be_bytes(b)
}

// The calls take each buffer with a length beside it, as C gives them; that the lengths fit is tested, and refused as 20.

// Add: an entry at the end of the index, a chunk at the end of the file. Of type 'FORM' the data is a whole file, as a lookup gives it.
pub fn add(
    buf: &mut [u8],
    len: usize,
    jrn: &mut [u8],
    used: usize,
    profile: u32,
    usage: [u8; 4],
    number: u32,
    kind: [u8; 4],
    d: &[u8],
) -> Answer
    ensures { Called profile (state buf.old len jrn.old used) (edit (add (rd32 usage) number (rd32 kind)
        d.now)) result buf.new jrn.new }
{
    let pair = Pair {
        usage: code_of(usage),
        number,
    };
    let kind = code_of(kind);
    let made = add_entry(buf, len, jrn, used, profile, pair, kind, d);
    Answer::new(made, len, used)
}

// Replace: the chunk in the same position takes the new type and data, given as for an add.
pub fn replace(
    buf: &mut [u8],
    len: usize,
    jrn: &mut [u8],
    used: usize,
    profile: u32,
    usage: [u8; 4],
    number: u32,
    kind: [u8; 4],
    d: &[u8],
) -> Answer
    ensures { Called profile (state buf.old len jrn.old used) (edit (replace (rd32 usage) number (rd32 kind) d.now))
        result buf.new jrn.new }
{
    let pair = Pair {
        usage: code_of(usage),
        number,
    };
    let kind = code_of(kind);
    let made = replace_chunk(buf, len, jrn, used, profile, pair, kind, d);
    Answer::new(made, len, used)
}

// Remove: the entry goes, and its chunk unless another entry has it too.
pub fn remove(
    buf: &mut [u8],
    len: usize,
    jrn: &mut [u8],
    used: usize,
    profile: u32,
    usage: [u8; 4],
    number: u32,
) -> Answer
    ensures { Called profile (state buf.old len jrn.old used) (edit (remove (rd32 usage) number)) result buf.new
        jrn.new }
{
    let pair = Pair {
        usage: code_of(usage),
        number,
    };
    let made = remove_entry(buf, len, jrn, used, profile, pair);
    Answer::new(made, len, used)
}

// Link: a new entry on the chunk of an existing one, the original, which is named first.
pub fn link(
    buf: &mut [u8],
    len: usize,
    jrn: &mut [u8],
    used: usize,
    profile: u32,
    usage: [u8; 4],
    number: u32,
    alias: [u8; 4],
    chosen: u32,
) -> Answer
    ensures { Called profile (state buf.old len jrn.old used) (edit (link (rd32 usage) number (rd32 alias) chosen)) result
        buf.new jrn.new }
{
    let original = Pair {
        usage: code_of(usage),
        number,
    };
    let alias = Pair {
        usage: code_of(alias),
        number: chosen,
    };
    let made = link_entry(buf, len, jrn, used, profile, original, alias);
    Answer::new(made, len, used)
}

// What a run of calls goes on with: the file's length, and U.
#[derive(Clone, Copy)]
pub struct Session {
    pub len: usize,
    pub used: usize,
}

impl Session {
    pub const BLANK_SIZE: usize = 24;

    pub const BLANK: [u8; 24] = *b"FORM\x00\x00\x00\x10IFRSRIdx\x00\x00\x00\x04\x00\x00\x00\x00";

    // A blank file and an empty journal.
    pub fn fresh() -> Session
        ensures { (result.len ≡ 24) × (result.used ≡ 0) }
    {
        Session {
            len: Session::BLANK_SIZE,
            used: 0,
        }
    }
}

// Blank: the blank file stands in the buffer's first 24 bytes.
pub fn blank(buf: &mut [u8]) -> Answer
    ensures { (result ≡ blank_answer (leb 24 (length buf.old))) × (buf.new ≡ blanked buf.old) }
{
    if buf.len() < Session::BLANK_SIZE {
        return Answer {
            outcome: Err(Refusal {
                fault: Fault::FileRoom,
                place: 0,
            }),
            len: 0,
            used: 0,
        };
    }
    let file = Session::BLANK;
    moves::copy_in(buf, 0, &file);
    let fresh = Session::fresh();
    Answer {
        outcome: Ok(()),
        len: fresh.len,
        used: fresh.used,
    }
}

// The file before the last record's edit, written over the present one. The undo was planned under some profile, which matters no more.
fn write_back(buf: &mut [u8], len: usize, jrn: &[u8], used: usize, plan: Undoing)
    requires { (profile : ℕ) × (undo_plan_of profile buf.old len jrn.now used ≡ Ok plan) }
    ensures { buf.new ≡ written buf.old len (undone_file (take len buf.old) (take used jrn.now)) }
{
    let r = plan.last;
    let extent = Extent {
        len,
        count: plan.count,
    };
    let part = Part {
        place: r.place as usize,
        start: plan.at,
        size: plan.size,
    };
    let gap = Gap {
        place: r.place as usize,
        at: plan.at,
    };
    let end = used - 4;
    let from = end - r.length as usize;
    let d = &jrn[from..end];
    match r.kind {
        Kind::Added | Kind::Linked => rewrite::remove_bytes(buf, extent, part),
        Kind::Replaced => rewrite::replace_bytes(buf, extent, part, r.sort, d),
        Kind::Removed => rewrite::insert_bytes(buf, extent, gap, r.pair(), r.sort, d),
        Kind::Unlisted => rewrite::insert_entry(buf, extent, gap, r.pair()),
    }
}

// Undo, answered as the edits are.
fn take_back(
    buf: &mut [u8],
    len: usize,
    jrn: &[u8],
    used: usize,
    profile: u32,
) -> Result<Session, Refusal>
    ensures { Called profile (state buf.old len jrn.now used) undo (answered_with result len used) buf.new jrn.now }
{
    let plan = undoing::undo_plan(buf, len, jrn, used, profile)?;
    write_back(buf, len, jrn, used, plan);
    Ok(Session {
        len: plan.to,
        used: used - (29 + plan.last.length as usize),
    })
}

// Undo: the last record's edit is taken back. The journal is only read.
pub fn undo(buf: &mut [u8], len: usize, jrn: &[u8], used: usize, profile: u32) -> Answer
    ensures { Called profile (state buf.old len jrn.now used) undo result buf.new jrn.now }
{
    let made = take_back(buf, len, jrn, used, profile);
    Answer::new(made, len, used)
}
