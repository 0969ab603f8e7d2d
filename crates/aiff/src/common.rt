// The 'FORM' of an AIFF and the 'COMM' chunk in it.
ghost use Rattle.std.specs.Prelude.{◌≡◌, true, false};
ghost use Rattle.aiff.specs.Common.{is_form_of, is_aiff_of};
ghost use Rattle.aiff.specs.Seeing.{seen_next_of, Sees, Told};

const AIFF: u64 = 0x41494646;

const COMM: u64 = 0x434f4d4d;

// The 'COMM' chunks seen so far.
#[derive(Clone, Copy)]
pub enum Seen {
    Nothing,
    One(usize),
    Many,
}

// A single 'FORM' of type 'AIFF', and nothing behind it.
#[tactic(auto, unfolding(crate::specs::Common::is_form_of))]
fn is_form(s: &[u8]) -> bool
    ensures { result ≡ is_form_of s.now }
{
    s.len() >= 12
        && blorb::be32_at(s, 0) == blorb::FORM
        && 8 + blorb::be32_at(s, 4) as usize == s.len()
        && blorb::be32_at(s, 8) == AIFF
}

// Whether chunks of rule 2 fill it too.
pub(crate) fn is_aiff(s: &[u8]) -> bool
    ensures { result ≡ is_aiff_of s.now }
{
    is_form(s) && chunks::walk(s).is_ok()
}

// One more chunk, of type `kind`, at `at`.
#[tactic(auto, unfolding(crate::specs::Seeing::seen_next_of))]
fn seen_next(seen: Seen, kind: u64, at: usize) -> Seen
    ensures { result ≡ seen_next_of seen kind at }
{
    if kind != COMM {
        return seen;
    }
    match seen {
        Seen::Nothing => Seen::One(at),
        Seen::One(_) => Seen::Many,
        Seen::Many => Seen::Many,
    }
}

// The 'COMM' chunks among all.
fn seen_in(s: &[u8]) -> Seen
    requires { is_aiff_of s.now ≡ true }
    ensures { Sees s.now result }
{
    let mut at: usize = 12;
    let mut seen = Seen::Nothing;
    while at < s.len() {
        seen = seen_next(seen, blorb::be32_at(s, at), at);
        at = chunks::skip(s, at);
    }
    seen
}

// Where the one 'COMM' chunk begins, if it has 18 bytes.
pub(crate) fn common_in(s: &[u8]) -> Option<usize>
    requires { is_aiff_of s.now ≡ true }
    ensures { Told s.now result }
{
    let Seen::One(at) = seen_in(s) else {
        return None;
    };
    if blorb::be32_at(s, at + 4) == 18 {
        Some(at)
    } else {
        None
    }
}
