// The terms of the Blorb format that reader and editor share: a number in four bytes, the four usages, and rule 5.
#![tactic(auto)]

mod refusal;

ghost use Rattle.std.specs.Prelude.{◌≡◌, ◌+◌, ◌≤◌, ◌<◌, ◌^◌, not, ◌&&◌, ◌||◌, eqb, length, drop};
ghost use Rattle.blorb.specs.Bytes.{rd32};
ghost use Rattle.blorb.specs.Format.{chunk_of};
ghost use Rattle.blorb.specs.Lookup.{left_out_of};
ghost use Rattle.blorb.specs.Rules.{plain_allows_of, adrift_allows_of, allows};
ghost use Rattle.blorb.specs.Tags.{Exec, Pict};
ghost use Rattle.blorb.specs.declared.Usage.TheVariants.{Snd};
ghost use Rattle.blorb.specs.Usages.{code_of, usage_of, pict_type_of, snd_type_of, data_type_of, exec_type_of, adrift_sound_type_of};

pub use refusal::{Fault, Refusal};

// An entry's usage, once read: one of four kinds.
#[derive(Clone, Copy, PartialEq, Eq, Debug)]
pub enum Usage {
    Pict,
    Snd,
    Data,
    Exec,
}

// An entry of the index, its usage one of four kinds.
#[derive(Clone, Copy)]
pub struct Entry {
    pub usage: Usage,
    pub number: u32,
    pub start: u32,
}

// What an entry is asked for by: its usage, as the number in its four bytes, and its number.
#[derive(Clone, Copy, PartialEq, Eq, Debug)]
pub struct Pair {
    pub usage: u32,
    pub number: u32,
}

impl Pair {
    // An Exec has number 0.
    pub fn number_fits(self) -> bool
        ensures { result ≡ (not (eqb self.usage Exec) || eqb self.number 0) }
    {
        (self.usage as u64 != Usage::EXEC) | (self.number == 0)
    }

    // It is that of the picture numbered `q`.
    pub fn is_picture(self, q: u32) -> bool
        ensures { result ≡ (eqb self.usage Pict && eqb self.number q) }
    {
        (self.usage as u64 == Usage::PICT) & (self.number == q)
    }
}

// The number at `at`, whose four bytes lie in the slice.
pub fn be32_at(s: &[u8], at: usize) -> u64
    requires { at + 4 ≤ length s.now }
    ensures { (result ≡ rd32 (drop at s.now)) × (result < 2 ^ 32) }
{
    u32::from_be_bytes([s[at], s[at + 1], s[at + 2], s[at + 3]]) as u64
}

// Chunk types as the numbers in their four bytes.
pub const FORM: u64 = 0x464f524d;

pub const IFRS: u64 = 0x49465253;

pub const RIDX: u64 = 0x52496478;

pub const RELN: u64 = 0x52656c4e;

pub const FSPC: u64 = 0x46737063;

const JPEG: u64 = 0x4a504547;

const PNG: u64 = 0x504e4720;

pub const RECT: u64 = 0x52656374;

const GIF: u64 = 0x47494620;

const WAV: u64 = 0x57415620;

const MIDI: u64 = 0x4d494449;

const MP3: u64 = 0x4d503320;

const OGGV: u64 = 0x4f474756;

const MOD: u64 = 0x4d4f4420;

const SONG: u64 = 0x534f4e47;

const AIFF: u64 = 0x41494646;

const TEXT: u64 = 0x54455854;

const BINA: u64 = 0x42494e41;

const ZCOD: u64 = 0x5a434f44;

const GLUL: u64 = 0x474c554c;

const TAD2: u64 = 0x54414432;

const TAD3: u64 = 0x54414433;

const HUGO: u64 = 0x4855474f;

const ALAN: u64 = 0x414c414e;

const ADRI: u64 = 0x41445249;

const LEVE: u64 = 0x4c455645;

const AGT: u64 = 0x41475420;

const MAGS: u64 = 0x4d414753;

const ADVS: u64 = 0x41445653;

const EXEC: u64 = 0x45584543;

// How many bytes of a chunk's front a lookup leaves out: its header, and nothing of a 'FORM', which is a whole file.
pub fn left_out(kind: u32) -> usize
    ensures { (result ≡ left_out_of kind) × (result ≤ 8) }
{
    if kind as u64 == FORM {
        return 0;
    }
    8
}

fn pict_type(t: u64, m: u64) -> bool
    ensures { result ≡ pict_type_of t m }
{
    (t == JPEG) | ((t == PNG) | ((t == RECT) & (m == 8)))
}

fn snd_type(t: u64) -> bool
    ensures { result ≡ snd_type_of t }
{
    matches!(t, OGGV | MOD | SONG)
}

fn adrift_sound_type(t: u64) -> bool
    ensures { result ≡ adrift_sound_type_of t }
{
    matches!(t, WAV | MIDI | MP3)
}

fn data_type(t: u64) -> bool
    ensures { result ≡ data_type_of t }
{
    matches!(t, TEXT | BINA)
}

fn exec_type(t: u64) -> bool
    ensures { result ≡ exec_type_of t }
{
    matches!(
        t,
        ZCOD | GLUL | TAD2 | TAD3 | HUGO | ALAN | ADRI | LEVE | AGT | MAGS | ADVS | EXEC
    )
}

// Rule 5 for a sound: a 'FORM' must hold 'AIFF'.
fn sound_type(t: u64, d: &[u8]) -> bool
    ensures { result ≡ plain_allows_of (code_of Snd) (chunk_of t d.now) }
{
    if t != FORM {
        return snd_type(t);
    }
    if d.len() < 4 {
        return false;
    }
    be32_at(d, 0) == AIFF
}

impl Usage {
    pub const PICT: u64 = 0x50696374;

    pub const SND: u64 = 0x536e6420;

    pub const DATA: u64 = 0x44617461;

    pub const EXEC: u64 = 0x45786563;

    // The usage that four bytes name, read as a number. No TryFrom: of a code that names none there is nothing to say.
    pub fn of_code(code: u64) -> Option<Usage>
        ensures { result ≡ usage_of code }
    {
        if code == Usage::PICT {
            return Some(Usage::Pict);
        }
        if code == Usage::SND {
            return Some(Usage::Snd);
        }
        if code == Usage::DATA {
            return Some(Usage::Data);
        }
        if code == Usage::EXEC {
            return Some(Usage::Exec);
        }
        None
    }

    // Its four bytes as a number.
    pub fn code(self) -> u64
        ensures { result ≡ code_of self }
    {
        match self {
            Usage::Pict => Usage::PICT,
            Usage::Snd => Usage::SND,
            Usage::Data => Usage::DATA,
            Usage::Exec => Usage::EXEC,
        }
    }

    // Rule 5 for plain files; every profile allows as much. The reader asks it for each entry: as a call it would cost the loop its registers.
    #[inline(always)]
    pub fn plain_allows(self, kind: u64, d: &[u8]) -> bool
        ensures { result ≡ plain_allows_of (code_of self) (chunk_of kind d.now) }
    {
        match self {
            Usage::Pict => pict_type(kind, d.len() as u64),
            Usage::Snd => sound_type(kind, d),
            Usage::Data => data_type(kind),
            Usage::Exec => exec_type(kind),
        }
    }

    // What the ADRIFT profile allows besides.
    fn adrift_allows(self, kind: u64) -> bool
        ensures { result ≡ adrift_allows_of (code_of self) kind }
    {
        match self {
            Usage::Pict => kind == GIF,
            Usage::Snd => adrift_sound_type(kind),
            Usage::Data => false,
            Usage::Exec => false,
        }
    }

    // What the profile allows besides. It stands apart from `allows` for callers that test the plain types by themselves first.
    pub fn also_allows(self, profile: u32, kind: u64) -> bool
        ensures { result ≡ (eqb profile 1 && adrift_allows_of (code_of self) kind) }
    {
        (profile == 1) & self.adrift_allows(kind)
    }

    // Rule 5: whether a chunk of this type and data may stand under this usage, in files of this profile.
    pub fn allows(self, profile: u32, kind: u64, d: &[u8]) -> bool
        ensures { result ≡ allows profile (code_of self) (chunk_of kind d.now) }
    {
        if self.plain_allows(kind, d) {
            return true;
        }
        self.also_allows(profile, kind)
    }
}

// Rule 5 for a usage given by its four bytes: an unknown one allows nothing.
pub fn type_allowed(profile: u32, code: u64, kind: u64, d: &[u8]) -> bool
    ensures { result ≡ allows profile code (chunk_of kind d.now) }
{
    let Some(usage) = Usage::of_code(code) else {
        return false;
    };
    usage.allows(profile, kind, d)
}
