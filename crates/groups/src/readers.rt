// The readers of FORMs and of groups, which call each other, and of PROPs.
ghost use Rattle.std.specs.Prelude.{◌≡◌, ◌+◌, ◌≤◌, length, Ok, IfSome};
ghost use Rattle.blorb.specs.Refusals.{verdict_of};
ghost use Rattle.members.specs.declared.Kind.TheVariants.{Plain};
ghost use Rattle.members.specs.declared.Place.TheVariants.{InProp};
ghost use Rattle.members.specs.Faults.{kind_at};
ghost use Rattle.groups.specs.Events.{members, chunk};
ghost use Rattle.groups.specs.Files.{first_fault};
ghost use Rattle.groups.specs.Scan.{outcome, left, scan, form_shows, scan_file_of, member_at_of};
ghost use Rattle.groups.specs.declared.readers.Member.TheVariants.{Passed};

use crate::store::Rows;
use blorb::{Fault, Refusal};
use members::{Kind, Place, Spot};

// A member without a fault: a FORM by the end of its data, a group by what its members stand in and the end of its data, or a chunk with no FORM in it;
// and where the next member begins and what it stands in.
#[derive(Clone, Copy)]
pub enum Member {
    Form {
        close: usize,
        next: usize,
        after: Place,
    },
    Group {
        inside: Place,
        close: usize,
        next: usize,
        after: Place,
    },
    Passed {
        next: usize,
        after: Place,
    },
}

// The members of a PROP whose data ends at `close`, plain chunks only.
fn prop_in(prop: &Spot, close: usize) -> Result<(), Refusal>
    requires { (prop.now.at ≤ length prop.now.file.now) × (close ≤ length prop.now.file.now) × (prop.now.depth ≤ 17) }
    ensures { verdict_of result
        ≡ first_fault (members prop.now.file.now InProp (prop.now.depth + 1) close (prop.now.at + 12)) }
{
    let mut spot = prop.within(Place::InProp, close);
    while spot.at < spot.end {
        spot.fault()?;
        let next = spot.next();
        spot.move_to(next, Place::InProp);
    }
    Ok(())
}

// One member, with all that a PROP holds.
fn member_at(spot: &Spot) -> Result<Member, Refusal>
    requires { spot.now.depth ≤ 17 }
    ensures { result
        ≡ member_at_of spot.now.file.now spot.now.place spot.now.depth spot.now.end spot.now.at }
{
    spot.fault()?;
    let close = spot.close();
    let next = spot.next();
    let kind = spot.kind();
    let after = spot.place.behind(kind);
    match kind {
        Kind::Form => Ok(Member::Form { close, next, after }),
        Kind::List => Ok(Member::Group {
            inside: Place::ListHead,
            close,
            next,
            after,
        }),
        Kind::Cat => Ok(Member::Group {
            inside: Place::InGroup,
            close,
            next,
            after,
        }),
        Kind::Prop => {
            prop_in(spot, close)?;
            Ok(Member::Passed { next, after })
        }
        Kind::Plain => Ok(Member::Passed { next, after }),
    }
}

// Most members are plain chunks of a FORM. Where the member behind this one begins, if one look at the header shows that it is plain and without a fault;
// what the next one stands in is the same. None: it tells too little.
fn plain_look(spot: &Spot) -> Option<usize>
    requires { spot.now.at ≤ spot.now.end }
    ensures { IfSome result
        (λ next. (member_at_of spot.now.file.now spot.now.place spot.now.depth spot.now.end spot.now.at ≡ Ok (Passed next spot.now.place))
        × (kind_at spot.now.file.now spot.now.at ≡ Plain)) }
{
    if spot.end - spot.at < 8 {
        return None;
    }
    let m = spot.size();
    let close = spot.at + 8 + m;
    if spot.end < close {
        return None;
    }
    if !spot.is_padded() {
        return None;
    }
    if spot.kind().is_plain() && spot.place.may_hold(Kind::Plain) {
        return Some(close + m % 2);
    }
    None
}

// Most of the others are FORMs: those without a fault are found with one look at the header too.
fn form_look(spot: &Spot) -> Option<Member>
    requires { spot.now.at ≤ spot.now.end }
    ensures { IfSome result
        (λ m. member_at_of spot.now.file.now spot.now.place spot.now.depth spot.now.end spot.now.at ≡ Ok m) }
{
    if spot.end - spot.at < 8 {
        return None;
    }
    let m = spot.size();
    let close = spot.at + 8 + m;
    if spot.end < close {
        return None;
    }
    if !spot.is_padded() {
        return None;
    }
    match spot.kind() {
        Kind::Form if 4 <= m && spot.depth <= 16 && spot.place.may_hold(Kind::Form) => {
            Some(Member::Form {
                close,
                next: close + m % 2,
                after: spot.place.behind(Kind::Form),
            })
        }
        _ => None,
    }
}

// The member at a spot, by a quick look where that tells enough. What the long look answers is taken apart and put together again: handed on whole, it would
// be copied through memory.
fn next_member(spot: &Spot) -> Result<Member, Refusal>
    requires { (spot.now.at ≤ spot.now.end) × (spot.now.depth ≤ 17) }
    ensures { result
        ≡ member_at_of spot.now.file.now spot.now.place spot.now.depth spot.now.end spot.now.at }
{
    if let Some(member) = form_look(spot) {
        return Ok(member);
    }
    match member_at(spot)? {
        Member::Form { close, next, after } => Ok(Member::Form { close, next, after }),
        Member::Group {
            inside,
            close,
            next,
            after,
        } => Ok(Member::Group {
            inside,
            close,
            next,
            after,
        }),
        Member::Passed { next, after } => Ok(Member::Passed { next, after }),
    }
}

// The FORM reader: the row of a FORM whose data ends at `close`, then its members. levels: how many of the 16 are left, its own among them.
#[cycle(form_in_members_in)]
fn form_in(form: &Spot, close: usize, levels: usize, rows: &mut Rows) -> Result<(), Refusal>
    requires { (form.now.at + 12 ≤ close) × (close ≤ length form.now.file.now) × (length form.now.file.now ≤ 16777216)
        × (form.now.depth + levels ≡ 17) × (rows.old.count ≤ form.now.at) × (1 ≤ levels) }
    ensures same_slice { rows.new.slice.ghost_name ≡ rows.old.slice.ghost_name }
    ensures same_base { rows.new.base ≡ rows.old.base }
    ensures shown { left result rows.new.count rows.new.slice.now
        ≡ scan rows.old.base rows.old.count rows.old.slice.now
        (form_shows form.now.file.now form.now.depth close form.now.at) }
{
    let kind = blorb::be32_at(form.file, form.at + 8);
    rows.put(
        kind as u32,
        form.at as u32,
        form.size() as u32,
        (17 - levels) as u32,
    );
    members_in(form, Place::InForm, close, levels, rows)
}

// The group reader: the members of a FORM, LIST or CAT whose data ends at `close`. levels: how many of the 16 are left, the holder's own among them. Two spots
// on each level: the stack has to hold those of 16.
#[cycle(form_in_members_in)]
fn members_in(
    holder: &Spot,
    inside: Place,
    close: usize,
    levels: usize,
    rows: &mut Rows,
) -> Result<(), Refusal>
    requires { (holder.now.at + 12 ≤ length holder.now.file.now) × (close ≤ length holder.now.file.now)
        × (length holder.now.file.now ≤ 16777216) × (holder.now.depth + levels ≡ 17)
        × (rows.old.count ≤ holder.now.at + 12) × (1 ≤ levels) }
    ensures same_slice { rows.new.slice.ghost_name ≡ rows.old.slice.ghost_name }
    ensures same_base { rows.new.base ≡ rows.old.base }
    ensures shown { left result rows.new.count rows.new.slice.now
        ≡ scan rows.old.base rows.old.count rows.old.slice.now
        (members holder.now.file.now inside (holder.now.depth + 1) close (holder.now.at + 12)) }
{
    let mut spot = holder.within(inside, close);
    while spot.at < spot.end {
        if let Some(next) = plain_look(&spot) {
            let place = spot.place;
            spot.move_to(next, place);
            continue;
        }
        // A spot of its own is lent on, so that plain chunks are gone over in registers.
        let here = spot;
        match next_member(&here)? {
            Member::Passed { next, after } => {
                spot.move_to(next, after);
            }
            Member::Form { close, next, after } => {
                form_in(&here, close, levels - 1, rows)?;
                spot.move_to(next, after);
            }
            Member::Group {
                inside,
                close,
                next,
                after,
            } => {
                members_in(&here, inside, close, levels - 1, rows)?;
                spot.move_to(next, after);
            }
        }
    }
    Ok(())
}

// The one FORM or group of a file.
fn top_in(top: &Spot, rows: &mut Rows) -> Result<(), Refusal>
    requires { (length top.now.file.now ≤ 16777216) × (top.now.depth ≤ 16) × (rows.old.count ≤ top.now.at) }
    ensures same_slice { rows.new.slice.ghost_name ≡ rows.old.slice.ghost_name }
    ensures same_base { rows.new.base ≡ rows.old.base }
    ensures shown { left result rows.new.count rows.new.slice.now
        ≡ scan rows.old.base rows.old.count rows.old.slice.now
        (chunk top.now.file.now top.now.place top.now.depth top.now.end top.now.at) }
{
    let levels = 17 - top.depth;
    match member_at(top)? {
        Member::Passed { .. } => Ok(()),
        Member::Form { close, .. } => form_in(top, close, levels, rows),
        Member::Group { inside, close, .. } => members_in(top, inside, close, levels, rows),
    }
}

// The whole file: its FORMs counted, those from row base on stored as far as the slice goes.
pub fn scan_file(file: &[u8], slice: &mut [u32], base: usize) -> Result<usize, Refusal>
    ensures { outcome result slice.new ≡ scan_file_of base slice.old file.now }
{
    if 16777216 < file.len() {
        return Err(Refusal {
            fault: Fault::TooLong,
            place: 0,
        });
    }
    let top = Spot {
        file,
        place: Place::Top,
        depth: 1,
        end: file.len(),
        at: 0,
    };
    let mut rows = Rows {
        slice,
        base,
        count: 0,
    };
    top_in(&top, &mut rows)?;
    let next = top.next();
    if next != file.len() {
        return Err(Refusal {
            fault: Fault::GroupMember,
            place: next,
        });
    }
    Ok(rows.count)
}
