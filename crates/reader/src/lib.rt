// The reader of a Blorb file: its verdict, its entries, and the lookup of a resource.
#![tactic(auto)]

use blorb::{Entry, Fault, Refusal, Usage};
use index::{entries, optional};

mod parts;
mod straight;

ghost use Rattle.std.specs.Prelude.{◌≡◌};
ghost use Rattle.blorb.specs.Bytes.{rd32};
ghost use Rattle.blorb.specs.Rules.{profile_verdict};
ghost use Rattle.blorb.specs.Model.{model};
ghost use Rattle.reader.specs.Reading.{read_of, asked_of, lookup_of, part_of, part_at};
ghost use Rattle.reader.specs.Inspecting.{inspection_of};
ghost use Rattle.reader.specs.Passed.{Judges, JudgesEntries};

// An accepted file: its length and entry count.
#[derive(Clone, Copy, PartialEq, Eq, Debug)]
pub struct Accepted {
    pub length: usize,
    pub count: usize,
}

// What a lookup gives of a resource: its chunk's type, and where its part of the file is.
#[derive(Clone, Copy, PartialEq, Eq, Debug)]
pub struct Resource {
    pub kind: u32,
    pub start: usize,
    pub length: usize,
}

// An entry's chunk: the entry's place in the index, the chunk's start, type and data length, and whether another entry has it too.
#[derive(Clone, Copy, PartialEq, Eq, Debug)]
pub struct Piece {
    pub place: usize,
    pub start: u32,
    pub kind: u32,
    pub length: u32,
    pub shared: bool,
}

// The frontispiece chunk: where it starts and the picture number in it.
#[derive(Clone, Copy, PartialEq, Eq, Debug)]
pub struct Frontispiece {
    pub start: u32,
    pub number: u32,
}

// What an accepted file tells.
#[derive(Clone, Copy, PartialEq, Eq, Debug)]
pub struct Facts {
    pub count: usize,
    pub target: Option<Piece>,
    pub front: Option<Frontispiece>,
    pub begins: bool,
}

// What is known of a file that keeps the rules: its entry count, and `ordinary`, true only where no chunk behind the index is a 'RelN' or an 'Fspc'.
#[derive(Clone, Copy)]
struct Judged {
    count: usize,
    ordinary: bool,
}

// Refusals 1 to 16 and 27 to 29, each in its turn; 17 to 19 are left to judge.
fn judge_in_turn(file: &[u8], profile: u32) -> Result<Judged, Refusal>
    ensures { JudgesEntries profile result file.now }
{
    chunks::head(file)?;
    let ordinary = chunks::walk(file)?;
    chunks::first(file)?;
    chunks::second_if(ordinary, file, chunks::skip(file, 12))?;
    entries::shape(file)?;
    let count = blorb::be32_at(file, 20) as usize;
    entries::entries(file, profile, count)?;
    Ok(Judged { count, ordinary })
}

// The same. An accepted file is known by the straight way; only a refused one is judged in turn, for its first refusal.
fn judge_entries(file: &[u8], profile: u32) -> Result<Judged, Refusal>
    ensures { JudgesEntries profile result file.now }
{
    match straight::in_one_pass(file, profile) {
        Some(judged) => Ok(judged),
        None => judge_in_turn(file, profile),
    }
}

// 52, then the whole table: 1 to 19, 27, 28 and 29.
fn judge_file(file: &[u8], profile: u32) -> Result<Judged, Refusal>
    ensures { Judges profile result file.now }
{
    if 1 < profile {
        return Err(Refusal {
            fault: Fault::Profile,
            place: 0,
        });
    }
    let judged = judge_entries(file, profile)?;
    if !judged.ordinary {
        optional::optional(file, judged.count)?;
    }
    Ok(judged)
}

// The reader's verdict under a profile, 0 plain and 1 ADRIFT: the file's length and entry count, or the first refusal of the table.
pub fn read(file: &[u8], profile: u32) -> Result<Accepted, Refusal>
    ensures { result ≡ read_of profile file.now }
{
    let judged = judge_file(file, profile)?;
    Ok(Accepted {
        length: file.len(),
        count: judged.count,
    })
}

// Entry i of the index: its usage, number and start.
pub fn entry(file: &[u8], profile: u32, i: usize) -> Result<Entry, Refusal>
    ensures { result ≡ asked_of profile file.now i }
{
    let accepted = read(file, profile)?;
    if accepted.count <= i {
        return Err(Refusal {
            fault: Fault::NotThere,
            place: 0,
        });
    }
    let p = 24 + 12 * i;
    let Some(usage) = Usage::of_code(blorb::be32_at(file, p)) else {
        return Err(Refusal {
            fault: Fault::UnknownUsage,
            place: p,
        });
    };
    let number = blorb::be32_at(file, p + 4) as u32;
    let start = blorb::be32_at(file, p + 8) as u32;
    Ok(Entry {
        usage,
        number,
        start,
    })
}

fn code(usage: [u8; 4]) -> u64
    ensures { result ≡ rd32 usage }
{
    blorb::be32_at(&usage, 0)
}

// The chunk of the entry (usage, number): its type, and where what a lookup gives of it is.
pub fn lookup(file: &[u8], profile: u32, usage: [u8; 4], number: u32) -> Result<Resource, Refusal>
    ensures { result ≡ lookup_of profile file.now (rd32 usage) number }
{
    let accepted = read(file, profile)?;
    let Some(at) = entries::find(file, accepted.count, code(usage), number as u64) else {
        return Err(Refusal {
            fault: Fault::NotThere,
            place: 0,
        });
    };
    let kind = blorb::be32_at(file, at) as u32;
    let m = blorb::be32_at(file, at + 4) as usize;
    let skipped = blorb::left_out(kind);
    Ok(Resource {
        kind,
        start: at + skipped,
        length: 8 + m - skipped,
    })
}

// The part of `file` that the lookup names: these very bytes, where they lie. It is empty where the lookup refuses.
pub fn data(file: &[u8], profile: u32, usage: [u8; 4], number: u32) -> &[u8]
    ensures { (result.now ≡ part_of (lookup_of profile file.now (rd32 usage) number) file.now)
        × (result.ref_ptr ≡ part_at (lookup_of profile file.now (rd32 usage) number) file.entry.ref_ptr) }
{
    match lookup(file, profile, usage, number) {
        Ok(found) => {
            let end = found.start + found.length;
            &file[found.start..end]
        }
        Err(_) => &file[0..0],
    }
}

// One reading for whoever changes a file: its verdict and, where it is accepted, its entry count, the chunk of the entry
// (usage, number), the frontispiece, and whether a chunk behind the index begins at `at`.
pub fn inspect(
    file: &[u8],
    profile: u32,
    usage: u32,
    number: u32,
    at: usize,
) -> Result<Facts, Refusal>
    ensures { result ≡ inspection_of (profile_verdict profile file.now) (model file.now) usage number at }
{
    let whole = judge_file(file, profile)?;
    Ok(parts::facts(file, whole, usage as u64, number as u64, at))
}
