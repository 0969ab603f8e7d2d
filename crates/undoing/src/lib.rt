// Undo: whether the journal's last record fits, told from one reading of the file.
#![tactic(auto)]

ghost use Rattle.std.specs.Prelude.{◌≡◌, ◌+◌, ◌*◌, ◌-◌, ◌≤◌, ◌||◌, not, length, take, drop, eqb, leb, ltb};
ghost use Rattle.blorb.specs.Bytes.{rd32};
ghost use Rattle.blorb.specs.Format.{chunk_in};
ghost use Rattle.blorb.specs.Layout.{size_of};
ghost use Rattle.blorb.specs.Rules.{allows};
ghost use Rattle.blorb.specs.Verdict.{known_usage_of};
ghost use Rattle.edits.specs.Order.{between};
ghost use Rattle.undoing.specs.UndoPlan.{
  undo_plan_of,
  fitting_plan,
  start_in,
  question_of,
  UndoReady,
  front_matches,
  entry_fine_of,
  ChunkInside,
  fits_added_of,
  added_plan,
  fits_replaced_of,
  old_fine_of,
  replaced_plan,
  fits_removed_of,
  removed_plan,
  unlisted_plan,
  fits_linked_of,
  linked_plan,
};

use blorb::{Fault, Pair, Refusal, Usage};
use journal::{Kind, Record};
use reader::{Facts, Frontispiece, Piece};

pub mod journal;

// What an undo goes on with: the file has `count` entries; the last record's chunk stands, or goes in, at `at` and has `size` bytes
// now; the file has `to` bytes after it.
#[derive(Clone, Copy)]
pub struct Undoing {
    pub count: usize,
    pub at: usize,
    pub size: usize,
    pub to: usize,
    pub last: Record,
}

// The bytes of a chunk with `m` data bytes.
fn chunk_size(m: u32) -> usize
    ensures { result ≡ size_of m }
{
    let n = m as usize;
    8 + (n + n % 2)
}

// It names the frontispiece's picture.
fn is_front(front: Option<Frontispiece>, pair: Pair) -> bool
    ensures { result ≡ front_matches front pair.usage pair.number }
{
    match front {
        Some(front) => pair.is_picture(front.number),
        None => false,
    }
}

fn fits_added(p: Piece, count: usize, len: usize, place: u32) -> bool
    ensures { result ≡ fits_added_of p count len place }
{
    let end = p.start as usize + chunk_size(p.length);
    (p.place == place as usize) & ((count == place as usize + 1) & ((end == len) & !p.shared))
}

// Kind 1: the last entry goes, and its chunk.
fn plan_added(facts: Facts, len: usize, r: Record) -> Option<Undoing>
    ensures { result ≡ added_plan facts len r }
{
    let p = facts.target?;
    let size = chunk_size(p.length);
    let last = fits_added(p, facts.count, len, r.place);
    (last & !is_front(facts.front, r.pair())).then_some(Undoing {
        count: facts.count,
        at: p.start as usize,
        size,
        to: len.saturating_sub(12 + size),
        last: r,
    })
}

fn fits_replaced(p: Piece, r: Record) -> bool
    ensures { result ≡ fits_replaced_of p r }
{
    (p.place == r.place as usize) & ((p.start == r.start) & !p.shared)
}

// The record's type and data `d` may stand in the place of the entry's chunk: no 'RIdx', and no 'Rect' for the frontispiece's picture.
fn old_fine(profile: u32, r: Record, d: &[u8], front: Option<Frontispiece>) -> bool
    ensures { result ≡ old_fine_of profile r d.now front }
{
    let allowed = blorb::type_allowed(profile, r.usage as u64, r.sort as u64, d);
    (r.sort as u64 != blorb::RIDX)
        & (allowed & !(is_front(front, r.pair()) & (r.sort as u64 == blorb::RECT)))
}

// Kind 2: the entry's chunk takes the record's type and data `d`.
fn plan_replaced(profile: u32, facts: Facts, len: usize, r: Record, d: &[u8]) -> Option<Undoing>
    requires { len ≤ 16777216 }
    ensures { result ≡ replaced_plan profile facts len r d.now }
{
    let p = facts.target?;
    let size = chunk_size(p.length);
    let to = len.saturating_sub(size) + chunk_size(r.length);
    let fine = (to <= 16777216) & old_fine(profile, r, d, facts.front);
    (fits_replaced(p, r) & fine).then_some(Undoing {
        count: facts.count,
        at: p.start as usize,
        size,
        to,
        last: r,
    })
}

fn known_usage(usage: u32) -> bool
    ensures { result ≡ known_usage_of usage }
{
    Usage::of_code(usage as u64).is_some()
}

// 12 and 14 to 16 of an entry that goes in, whose chunk rule 5 allows or not.
fn entry_fine(pair: Pair, allowed: bool, target: Option<Piece>) -> bool
    ensures { result ≡ entry_fine_of pair.usage pair.number allowed target }
{
    match target {
        Some(_) => false,
        None => known_usage(pair.usage) & (allowed & pair.number_fits()),
    }
}

fn fits_removed(facts: Facts, len: usize, r: Record) -> bool
    ensures { result ≡ fits_removed_of facts len r }
{
    (r.place as usize <= facts.count)
        & (facts.begins | ((r.start as usize).saturating_sub(12) == len))
}

// The entry in front of `place` in the index of the file `s`, if there is one, starts below `limit`.
fn starts_below(s: &[u8], place: usize, limit: usize) -> bool
    requires { (place ≤ 4096) × (24 + 12 * place ≤ length s.now) }
    ensures { result ≡ (eqb place 0 || ltb (start_in s.now (place - 1)) limit) }
{
    if place == 0 {
        return true;
    }
    let i = place - 1;
    (blorb::be32_at(s, 32 + 12 * i) as usize) < limit
}

// The entry at `place`, if there is one, starts not below `at`.
fn starts_from(s: &[u8], count: usize, place: usize, at: usize) -> bool
    requires { (count ≤ 4096) × (24 + 12 * count ≤ length s.now) }
    ensures { result ≡ (not (ltb place count) || leb at (start_in s.now place)) }
{
    if count <= place {
        return true;
    }
    at <= blorb::be32_at(s, 32 + 12 * place) as usize
}

// The entries stay in the order of their chunks if one goes in at `place`, for a chunk at `at`.
fn in_order(s: &[u8], count: usize, place: usize, limit: usize, at: usize) -> bool
    requires { (count ≤ 4096) × (24 + 12 * count ≤ length s.now) }
    ensures { result ≡ between (start_in s.now) count place limit at }
{
    if count < place {
        return false;
    }
    starts_below(s, place, limit) & starts_from(s, count, place, at)
}

// Kind 3: in the file `s` the entry goes in, and a chunk with the record's type, which is no 'RIdx', and data `d`.
fn plan_removed(s: &[u8], profile: u32, facts: Facts, r: Record, d: &[u8]) -> Option<Undoing>
    requires { (length s.now ≤ 16777216) × (facts.count ≤ 4096) × (24 + 12 * facts.count ≤ length s.now) }
    ensures { result ≡ removed_plan profile facts s.now r d.now }
{
    let count = facts.count;
    let to = s.len() + 12 + chunk_size(r.length);
    let at = (r.start as usize).saturating_sub(12);
    let ordered = in_order(s, count, r.place as usize, at, at);
    let allowed = blorb::type_allowed(profile, r.usage as u64, r.sort as u64, d);
    let fine = (r.sort as u64 != blorb::RIDX)
        & ((count < 4096) & entry_fine(r.pair(), allowed, facts.target));
    (fits_removed(facts, s.len(), r) & (ordered & ((to <= 16777216) & fine))).then_some(Undoing {
        count,
        at,
        size: 0,
        to,
        last: r,
    })
}

// Rule 5 for the chunk that begins at `at` of the file `s`.
pub fn chunk_allowed(s: &[u8], profile: u32, at: usize, usage: u32) -> bool
    requires { at + (8 + rd32 (drop (at + 4) s.now)) ≤ length s.now }
    ensures { result ≡ allows profile usage (chunk_in (drop at s.now)) }
{
    let kind = blorb::be32_at(s, at);
    let m = blorb::be32_at(s, at + 4) as usize;
    let from = at + 8;
    let end = from + m;
    blorb::type_allowed(profile, usage as u64, kind, &s[from..end])
}

// Kind 4: the entry goes in; its chunk stands in the file `s`.
fn plan_unlisted(s: &[u8], profile: u32, facts: Facts, r: Record) -> Option<Undoing>
    requires { (length s.now ≤ 16777216) × ChunkInside facts.begins s.now (r.start - 12) × (facts.count ≤ 4096)
        × (24 + 12 * facts.count ≤ length s.now) }
    ensures { result ≡ unlisted_plan profile facts s.now r }
{
    if !facts.begins {
        return None;
    }
    let count = facts.count;
    let to = s.len() + 12;
    let at = (r.start as usize).saturating_sub(12);
    let ordered = in_order(s, count, r.place as usize, at + 1, at);
    let allowed = chunk_allowed(s, profile, at, r.usage);
    let fine = (to <= 16777216) & ((count < 4096) & entry_fine(r.pair(), allowed, facts.target));
    ((r.place as usize <= count) & (ordered & fine)).then_some(Undoing {
        count,
        at,
        size: 0,
        to,
        last: r,
    })
}

fn fits_linked(p: Piece, r: Record) -> bool
    ensures { result ≡ fits_linked_of p r }
{
    (p.place == r.place as usize) & ((p.start == r.start) & p.shared)
}

// Kind 5: the entry goes; its chunk stays, for another entry has it too.
fn plan_linked(facts: Facts, len: usize, r: Record) -> Option<Undoing>
    ensures { result ≡ linked_plan facts len r }
{
    let p = facts.target?;
    let front = is_front(facts.front, r.pair());
    (fits_linked(p, r) & !front).then_some(Undoing {
        count: facts.count,
        at: p.start as usize,
        size: 0,
        to: len.saturating_sub(12),
        last: r,
    })
}

// How the undo of a well-formed last record `r` goes on, if the record fits.
fn plan_fitting(
    buf: &[u8],
    len: usize,
    jrn: &[u8],
    used: usize,
    profile: u32,
    facts: Facts,
    r: Record,
) -> Option<Undoing>
    requires { UndoReady profile buf.now len jrn.now used r facts }
    ensures { result ≡ fitting_plan profile (take len buf.now) (take used jrn.now) }
{
    let s = &buf[..len];
    let end = used - 4;
    let from = end - r.length as usize;
    let d = &jrn[from..end];
    match r.kind {
        Kind::Added => plan_added(facts, len, r),
        Kind::Replaced => plan_replaced(profile, facts, len, r, d),
        Kind::Removed => plan_removed(s, profile, facts, r, d),
        Kind::Unlisted => plan_unlisted(s, profile, facts, r),
        Kind::Linked => plan_linked(facts, len, r),
    }
}

// What the reader is asked: an entry's usage and number, and whether a chunk begins at an offset.
#[derive(Clone, Copy)]
struct Question {
    usage: u32,
    number: u32,
    at: usize,
}

impl Question {
    // For the undo of this record. Only kinds 3 and 4 need the offset, and 0 spares the reader the walk to it.
    fn of(last: Option<Record>) -> Question
        ensures { result ≡ question_of last }
    {
        let Some(r) = last else {
            return Question {
                usage: 0,
                number: 0,
                at: 0,
            };
        };
        let at = match r.kind {
            Kind::Removed | Kind::Unlisted => (r.start as usize).saturating_sub(12),
            Kind::Added | Kind::Replaced | Kind::Linked => 0,
        };
        Question {
            usage: r.usage,
            number: r.number,
            at,
        }
    }
}

// An undo's refusal, or how it goes on. The lengths stand beside the buffers, as C gives them, for 20 is refused here.
pub fn undo_plan(
    buf: &[u8],
    len: usize,
    jrn: &[u8],
    used: usize,
    profile: u32,
) -> Result<Undoing, Refusal>
    ensures { result ≡ undo_plan_of profile buf.now len jrn.now used }
{
    if 1 < profile {
        return Err(Refusal {
            fault: Fault::Profile,
            place: 0,
        });
    }
    if buf.len() < len {
        return Err(Refusal {
            fault: Fault::Lengths,
            place: 0,
        });
    }
    if jrn.len() < used {
        return Err(Refusal {
            fault: Fault::Lengths,
            place: 0,
        });
    }
    let last = journal::last_record(&jrn[..used]);
    let asked = Question::of(last);
    let facts = reader::inspect(&buf[..len], profile, asked.usage, asked.number, asked.at)?;
    if used == 0 {
        return Err(Refusal {
            fault: Fault::NothingToUndo,
            place: 0,
        });
    }
    let unfit = Refusal {
        fault: Fault::Record,
        place: 0,
    };
    let r = last.ok_or(unfit)?;
    let plan = plan_fitting(buf, len, jrn, used, profile, facts, r).ok_or(unfit)?;
    if buf.len() < plan.to {
        return Err(Refusal {
            fault: Fault::FileRoom,
            place: 0,
        });
    }
    Ok(plan)
}
