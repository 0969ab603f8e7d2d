// UTF-8 by RFC 3629: how far the characters of a text go.
#![tactic(auto)]

ghost use Rattle.std.specs.Prelude.{◌≡◌, ◌<◌, ◌≤◌, cond, length, get_or, drop, MatchOption};
ghost use Rattle.utf8.specs.Utf8.{range, in_range, char_length, good_length_of};
ghost use Rattle.utf8.specs.Leads.{low_second_of, high_second_of};
ghost use Rattle.utf8.specs.Runs.{tail, Until};

// Whether the byte at `at` can only stand inside a character. None does behind the end.
pub fn is_tail(s: &[u8], at: usize) -> bool
    ensures { result ≡ tail s.now at }
{
    matches!(s.get(at), Some(0x80..=0xbf))
}

// Whether the byte at `at` may stand behind the first byte `a`, one from 224 on. A lower second byte behind 224 and 240 would write a shorter character at
// length; a greater one behind 237 makes a surrogate, and behind 244 a character above 10FFFF.
fn may_follow(a: u8, s: &[u8], at: usize) -> bool
    ensures { result ≡ in_range (range (low_second_of a) (high_second_of a)) (get_or s.now at 256) }
{
    let Some(&b) = s.get(at) else {
        return false;
    };
    match a {
        0xe0 => matches!(b, 0xa0..=0xbf),
        0xed => matches!(b, 0x80..=0x9f),
        0xf0 => matches!(b, 0x90..=0xbf),
        0xf4 => matches!(b, 0x80..=0x8f),
        _ => matches!(b, 0x80..=0xbf),
    }
}

// Whether a character of two bytes begins with the byte `a` at `at`, one from 128 to 223. Any tail byte may be its second.
fn two_bytes(s: &[u8], at: usize, a: u8) -> bool
    requires { (at < length s.now) × (a ≡ get_or s.now at 256) × (127 < a) × (a < 224) }
    ensures { char_length (drop at s.now) ≡ cond result 2 0 }
{
    a >= 194 && is_tail(s, at + 1)
}

// How many bytes the character at `at` has that begins with the byte `a` from 224 on; none may stand there.
fn long_char(s: &[u8], at: usize, a: u8) -> Option<usize>
    requires { (at < length s.now) × (a ≡ get_or s.now at 256) × (223 < a) }
    ensures { MatchOption result (char_length (drop at s.now) ≡ 0) (λ n. (char_length (drop at s.now) ≡ n) × (0 < n)) }
{
    if a > 244 || !may_follow(a, s, at + 1) || !is_tail(s, at + 2) {
        return None;
    }
    if a < 240 {
        return Some(3);
    }
    if is_tail(s, at + 3) { Some(4) } else { None }
}

// Where the characters from `from` on first reach or pass `stop`, or where no character follows. Bytes up to 127 are characters by themselves and cost one
// test each; characters of two bytes are asked apart, so that where the next one stands is known before their bytes are.
pub fn good_until(s: &[u8], from: usize, stop: usize) -> usize
    requires { (from ≤ stop) × (stop ≤ length s.now) }
    ensures { Until s.now from stop result }
{
    let mut at = from;
    while at < stop {
        let a = s[at];
        if a < 128 {
            at += 1;
            continue;
        }
        if a < 224 {
            if !two_bytes(s, at, a) {
                return at;
            }
            at += 2;
            continue;
        }
        let Some(n) = long_char(s, at, a) else {
            return at;
        };
        at += n;
    }
    at
}

// The length of the longest beginning of the text that is UTF-8.
pub fn good_length(s: &[u8]) -> usize
    ensures { result ≡ good_length_of s.now }
{
    good_until(s, 0, s.len())
}
