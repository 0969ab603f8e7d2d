// Where the chunks of a type stand in an accepted file, and whether a pair is in its index.
#![tactic(auto)]

ghost use Rattle.std.specs.Prelude.{◌≡◌, [], length, MatchOption};
ghost use Rattle.blorb.specs.Verdict.{accept, pair_in};
ghost use Rattle.blorb.specs.Model.{model};
ghost use Rattle.chunks.specs.Walk.{chunks_from, walk_from};
ghost use Rattle.locate.specs.Located.{of_type, located_in, located_of};
ghost use Rattle.locate.specs.Bridging.{First, AcceptedBy};

use blorb::Refusal;

// The chunks of a type behind the index: none, one (its start and the length of its data), or the first of them and the start of the second.
#[derive(Clone, Copy, PartialEq, Eq, Debug)]
pub enum Located {
    Nothing,
    One {
        start: usize,
        length: usize,
    },
    More {
        start: usize,
        length: usize,
        second: usize,
    },
}

// The first chunk of the type from `from` on.
fn next_of(s: &[u8], kind: u64, from: usize) -> Option<usize>
    requires { walk_from s.now from ≡ accept }
    ensures { MatchOption result (of_type kind from (chunks_from s.now from) ≡ []) (First s.now kind from) }
{
    let mut at = from;
    while at < s.len() {
        if blorb::be32_at(s, at) == kind {
            return Some(at);
        }
        at = chunks::skip(s, at);
    }
    None
}

// The chunks of the type from `from` on.
fn from_on(s: &[u8], kind: u64, from: usize) -> Located
    requires { walk_from s.now from ≡ accept }
    ensures { result ≡ located_in (of_type kind from (chunks_from s.now from)) }
{
    let Some(start) = next_of(s, kind, from) else {
        return Located::Nothing;
    };
    let length = blorb::be32_at(s, start + 4) as usize;
    match next_of(s, kind, chunks::skip(s, start)) {
        None => Located::One { start, length },
        Some(second) => Located::More {
            start,
            length,
            second,
        },
    }
}

// The chunks of a type behind the index of the file, or the reader's refusal under the profile.
pub fn by_type(file: &[u8], profile: u32, kind: u64) -> Result<Located, Refusal>
    ensures { result ≡ located_of profile file.now kind }
{
    let accepted = reader::read(file, profile)?;
    Ok(from_on(file, kind, 24 + 12 * accepted.count))
}

// Whether the pair is in the index of a file that has been accepted, which is not judged again.
pub fn in_index(file: &[u8], usage: u64, number: u64) -> bool
    requires { AcceptedBy file.now }
    ensures { result ≡ pair_in usage number (model file.now).refs }
{
    let count = blorb::be32_at(file, 20) as usize;
    index::entries::find_place(file, count, usage, number).is_some()
}
