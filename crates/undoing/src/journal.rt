// The journal's last record, read back (01, The undo journal).
ghost use Rattle.std.specs.Prelude.{◌≡◌, ◌+◌, ◌≤◌, length};
ghost use Rattle.edits.specs.KindRule.{kind_rule};
ghost use Rattle.undoing.specs.Kinds.{number_of, Names};
ghost use Rattle.undoing.specs.LastRecord.{record_at_of, last_of};

use blorb::Pair;

// What the edit did that a record takes back. The number of each is the record's first byte.
#[derive(Clone, Copy, PartialEq, Eq, Debug)]
pub enum Kind {
    // An entry and its chunk went in.
    Added = 1,
    // A chunk got another type and data.
    Replaced = 2,
    // An entry went, and its chunk.
    Removed = 3,
    // An entry alone went.
    Unlisted = 4,
    // An entry went in, for a chunk that was there.
    Linked = 5,
}

impl Kind {
    pub fn number(self) -> u8
        ensures { result ≡ number_of self }
    {
        self as u8
    }
}

// A byte that is no kind's number.
#[derive(Clone, Copy, PartialEq, Eq, Debug)]
pub struct UnknownKind(pub u8);

impl TryFrom<u8> for Kind {
    type Error = UnknownKind;

    ghost try_from_gives = { Names };

    fn try_from(number: u8) -> Result<Kind, UnknownKind> {
        match number {
            1 => Ok(Kind::Added),
            2 => Ok(Kind::Replaced),
            3 => Ok(Kind::Removed),
            4 => Ok(Kind::Unlisted),
            5 => Ok(Kind::Linked),
            _ => Err(UnknownKind(number)),
        }
    }
}

// A record's numbers; `sort` is its type, `length` the number of its data bytes.
#[derive(Clone, Copy)]
pub struct Record {
    pub kind: Kind,
    pub usage: u32,
    pub number: u32,
    pub place: u32,
    pub start: u32,
    pub sort: u32,
    pub length: u32,
}

impl Record {
    // The entry that it is about.
    pub fn pair(self) -> Pair
        ensures { (result.usage ≡ self.usage) × (result.number ≡ self.number) }
    {
        Pair {
            usage: self.usage,
            number: self.number,
        }
    }

    // The fields that its kind names zero are zero.
    fn is_allowed(self) -> bool
        ensures { result ≡ kind_rule (number_of self.kind) self.start self.sort self.length }
    {
        let bare = (self.sort == 0) & (self.length == 0);
        match self.kind {
            Kind::Added => (self.start == 0) & bare,
            Kind::Unlisted | Kind::Linked => bare,
            Kind::Replaced | Kind::Removed => true,
        }
    }
}

// The numbers of the record of this kind that begins at `at`.
fn record_at(jrn: &[u8], at: usize, kind: Kind) -> Record
    requires { at + 25 ≤ length jrn.now }
    ensures { result ≡ record_at_of jrn.now at kind }
{
    Record {
        kind,
        usage: blorb::be32_at(jrn, at + 1) as u32,
        number: blorb::be32_at(jrn, at + 5) as u32,
        place: blorb::be32_at(jrn, at + 9) as u32,
        start: blorb::be32_at(jrn, at + 13) as u32,
        sort: blorb::be32_at(jrn, at + 17) as u32,
        length: blorb::be32_at(jrn, at + 21) as u32,
    }
}

// The last record of the journal's bytes, if it is well formed.
pub fn last_record(jrn: &[u8]) -> Option<Record>
    ensures { result ≡ last_of jrn.now }
{
    if jrn.len() < 29 {
        return None;
    }
    let end = jrn.len() - 4;
    let t = blorb::be32_at(jrn, end) as usize;
    if t < 25 {
        return None;
    }
    if end < t {
        return None;
    }
    let at = end - t;
    let Ok(kind) = Kind::try_from(jrn[at]) else {
        return None;
    };
    let r = record_at(jrn, at, kind);
    if 25 + r.length as usize != t {
        return None;
    }
    r.is_allowed().then_some(r)
}
