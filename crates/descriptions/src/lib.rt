// Spoken descriptions: the texts of a file's 'RDes' chunk (02, P7), by entry and by the pair of a resource.
#![tactic(auto)]

mod entries;

ghost use Rattle.std.specs.Prelude.{◌≡◌, ◌+◌, ◌≤◌, length};
ghost use Rattle.blorb.specs.Bytes.{rd32};
ghost use Rattle.descriptions.specs.Texts.{described_of, told_of, text_of, text_place, told_text_of, told_place};
ghost use Rattle.descriptions.specs.Opened.{Opens};

use blorb::{Fault, Refusal};
use entries::Entries;
use locate::Located;

// An entry: its pair, and where its text stands in the file.
#[derive(Clone, Copy, PartialEq, Eq, Debug)]
pub struct Described {
    pub usage: u32,
    pub number: u32,
    pub start: usize,
    pub length: usize,
}

// Where the text of a pair stands in the file.
#[derive(Clone, Copy, PartialEq, Eq, Debug)]
pub struct Told {
    pub start: usize,
    pub length: usize,
}

const RDES: u64 = 0x52446573;

// There is no such entry or text.
fn not_there() -> Refusal
    ensures { result ≡ (22, 0) }
{
    Refusal {
        fault: Fault::NotThere,
        place: 0,
    }
}

// The entries of the file's one good 'RDes', none where it has none, or the first refusal under a profile. The reader's verdict is taken here, once.
fn open_rdes(file: &[u8], profile: u32) -> Result<Option<Entries<'_>>, Refusal>
    ensures { Opens result profile file.now }
{
    match locate::by_type(file, profile, RDES)? {
        Located::Nothing => Ok(None),
        Located::One { start, length } => {
            let from = start + 8;
            let entries = Entries::open(&file[from..from + length], start)?;
            Ok(Some(entries))
        }
        Located::More {
            start,
            length,
            second,
        } => {
            let from = start + 8;
            let _first = Entries::open(&file[from..from + length], start)?;
            Err(Refusal {
                fault: Fault::SecondRdes,
                place: second,
            })
        }
    }
}

// Entry `i` of the file's 'RDes' under a profile, also one whose resource is not in the index: its pair, and where its text is.
pub fn describe(file: &[u8], profile: u32, i: u64) -> Result<Described, Refusal>
    ensures { result ≡ described_of profile file.now i }
{
    match open_rdes(file, profile)? {
        Some(entries) => entries.get(i as usize).ok_or(not_there()),
        None => Err(not_there()),
    }
}

// The text that `describe` names: these very bytes, where they lie. It is empty where `describe` refuses.
pub fn text(file: &[u8], profile: u32, i: u64) -> &[u8]
    ensures { (result.now ≡ text_of (described_of profile file.now i) file.now)
        × (result.ref_ptr ≡ text_place (described_of profile file.now i) file.entry.ref_ptr) }
{
    match describe(file, profile, i) {
        Ok(entry) => &file[entry.start..entry.start + entry.length],
        Err(_) => &file[0..0],
    }
}

fn code(usage: [u8; 4]) -> u64
    ensures { result ≡ rd32 usage }
{
    blorb::be32_at(&usage, 0)
}

// Where the text of the pair is, under a profile; 22 for a pair that is not in the index, as for one without a text.
pub fn tell(file: &[u8], profile: u32, usage: [u8; 4], number: u32) -> Result<Told, Refusal>
    ensures { result ≡ told_of profile file.now (rd32 usage) number }
{
    match open_rdes(file, profile)? {
        Some(entries) => {
            let pair = code(usage);
            if !locate::in_index(file, pair, number as u64) {
                return Err(not_there());
            }
            entries.tell(pair, number as u64).ok_or(not_there())
        }
        None => Err(not_there()),
    }
}

// The text that `tell` names: these very bytes, where they lie. It is empty where `tell` refuses.
pub fn told_text(file: &[u8], profile: u32, usage: [u8; 4], number: u32) -> &[u8]
    ensures { (result.now ≡ told_text_of (told_of profile file.now (rd32 usage) number) file.now)
        × (result.ref_ptr ≡ told_place (told_of profile file.now (rd32 usage) number) file.entry.ref_ptr) }
{
    match tell(file, profile, usage, number) {
        Ok(told) => &file[told.start..told.start + told.length],
        Err(_) => &file[0..0],
    }
}
