// Texts that share bytes (02, P7: "over a lent slice of texts"). The slice is divided into segments, and a bit for each remembers that its characters
// lead into the next one: so a byte that many texts share is judged a few times, and not once for each of them. What is remembered spares walks; that a
// text is good is told by a walk to its end.
#![tactic(auto)]

ghost use Rattle.std.specs.Prelude.{◌≡◌, true, ◌+◌, ◌*◌, ◌^◌, ◌≤◌, ◌<◌, length, eqb};
ghost use Rattle.utf8.specs.Runs.{Start};
ghost use Rattle.shared_texts.specs.Segments.{text_between, Leads, Joined, Passed, LeadsOn, segment_size, bit_of, OneMore, Remembers};

use std::marker::Model;

// How many words remember segments, a bit for each.
pub const WORDS: usize = 896;

// There are fewer whole segments than this.
const SEGMENTS: usize = WORDS * 64;

// The first offset from `x` on that can begin a character. A loop: over `find` on a range the proof did not close.
fn first_start(texts: &[u8], x: usize) -> usize
    requires { x ≤ length texts.now }
    ensures { Start texts.now x result × (result ≤ length texts.now) }
{
    let mut at = x;
    while utf8::is_tail(texts, at) {
        at += 1;
    }
    at
}

// Whether characters lead from `from` to the first offset from `stop` on that can begin one.
fn leads(texts: &[u8], from: usize, stop: usize) -> bool
    requires { (from ≤ stop) × (stop ≤ length texts.now) }
    ensures { result ≡ true → Leads texts.now from stop }
{
    let end = utf8::good_until(texts, from, stop);
    end >= stop && !utf8::is_tail(texts, end)
}

// The same from the first offset from `x` on that can begin a character.
fn joins(texts: &[u8], x: usize, stop: usize) -> bool
    requires { (x ≤ stop) × (stop ≤ length texts.now) }
    ensures { result ≡ true → Joined texts.now x stop }
{
    let from = first_start(texts, x);
    from <= stop && leads(texts, from, stop)
}

fn is_set(word: u64, i: u64) -> bool
    requires { i < 64 }
    ensures { result ≡ eqb (bit_of word i) 1 }
{
    (word >> i) % 2 == 1
}

fn with_bit(word: u64, i: u64) -> u64
    requires { i < 64 }
    ensures { OneMore word i result }
{
    word | 1u64 << i
}

// A slice of texts, and what is remembered of it.
#[derive(Drop)]
pub struct Segments<'a> {
    texts: &'a [u8],
    known: &'a mut [u64; WORDS],
}

// In contracts it is the texts and the loan of the words: what is remembered is right.
impl<'a> Model for Segments<'a> {
    ghost use Rattle.std.specs.Prelude.{◌≡◌, length};
    ghost use Rattle.shared_texts.specs.Segments.{Lent, Remembers};

    ghost Value = { Lent };

    ghost view = { λ s. record { texts = s.texts.now; words = s.known.ghost_name } };

    ghost invariant = { λ s. (length s.known.now ≡ 896) × Remembers s.texts.now s.known.now };
}

impl<'a> Segments<'a> {
    // `known` is what is remembered of these texts: at first nothing, all its words 0.
    pub fn new(texts: &'a [u8], known: &'a mut [u64; WORDS]) -> Segments<'a>
        requires { Remembers texts.now known.old }
        ensures texts { result.texts ≡ texts.now }
        ensures same_reference { result.words ≡ known.entry.ghost_name }
    {
        Segments { texts, known }
    }

    // The words that were lent, with what they remember by now.
    pub fn known(self) -> &'a mut [u64; WORDS]
        ensures remembers { (length result.now ≡ 896) × Remembers self.entry.texts result.now }
        ensures same_reference { result.ghost_name ≡ self.entry.words }
    {
        let words = self.known;
        words
    }

    // How many bytes the texts have.
    pub fn len(&self) -> usize
        ensures { result ≡ length self.now.texts }
    {
        self.texts.len()
    }

    // The bytes of a segment. A short text is walked faster than it is looked up.
    fn size(&self) -> usize
        ensures { (result ≡ segment_size self.now.texts) × (result < 2 ^ 50) }
    {
        self.texts.len() / SEGMENTS + 256
    }

    // Whether the characters of segment `g`, which is from `x` to `stop`, lead into the next one; what is found is remembered.
    fn segment_joins(&mut self, g: usize, x: usize, stop: usize) -> bool
        requires { (x ≡ g * segment_size self.old.texts) × (stop ≡ x + segment_size self.old.texts) × (stop ≤ length self.old.texts) }
        ensures { ((result ≡ true → Joined self.old.texts x stop)) × (self.new ≡ self.old) }
    {
        let place = g / 64;
        let i = (g % 64) as u64;
        let word = self.known[place];
        if is_set(word, i) {
            return true;
        }
        if !joins(self.texts, x, stop) {
            return false;
        }
        self.known[place] = with_bit(word, i);
        true
    }

    // Whether the 64 segments from `x` to `stop`, the first of them segment `g`, are all remembered by one word.
    fn word_joins(&self, g: usize, x: usize, stop: usize) -> bool
        requires { (x ≡ g * segment_size self.now.texts) × (stop ≡ x + 64 * segment_size self.now.texts) × (stop ≤ length self.now.texts) }
        ensures { result ≡ true → Joined self.now.texts x stop }
    {
        g % 64 == 0 && matches!(self.known.get(g / 64), Some(&u64::MAX))
    }

    // How far segments are joined from segment `first` on, which begins at `from`, without passing `q`.
    fn pass(&mut self, first: usize, from: usize, q: usize) -> usize
        requires { (from ≡ first * segment_size self.old.texts) × (from ≤ q) × (q ≤ length self.old.texts) }
        ensures { LeadsOn self.old.texts from result × (result ≤ q) × (self.new ≡ self.old) }
    {
        let size = self.size();
        let mut g = first;
        let mut x = from;
        while size <= q - x {
            if 64 * size <= q - x && self.word_joins(g, x, x + 64 * size) {
                g += 64;
                x += 64 * size;
                continue;
            }
            if !self.segment_joins(g, x, x + size) {
                return x;
            }
            g += 1;
            x += size;
        }
        x
    }

    // How far characters lead from `p` by what is remembered, and where the next one begins; behind `q` only where `q` lies inside a character. Of a short
    // text nothing is looked up.
    fn passed(&mut self, p: usize, q: usize) -> usize
        requires { (p ≤ q) × (q ≤ length self.old.texts) }
        ensures { Passed self.old.texts p q result × (self.new ≡ self.old) }
    {
        let size = self.size();
        if q - p < 2 * size {
            return p;
        }
        let first = p / size + 1;
        let from = p - p % size + size;
        if !leads(self.texts, p, from) {
            return p;
        }
        let x = self.pass(first, from, q);
        first_start(self.texts, x)
    }

    // Whether the bytes from `p` to `q` are UTF-8.
    pub fn is_text(&mut self, p: usize, q: usize) -> bool
        requires { (p ≤ q) × (q ≤ length self.old.texts) }
        ensures { (result ≡ text_between self.old.texts p q) × (self.new ≡ self.old) }
    {
        let at = self.passed(p, q);
        at <= q && utf8::good_until(self.texts, at, q) == q
    }
}

// The same of a slice of texts. `known` is what is remembered of these texts: at first nothing, all its words 0.
pub fn is_text(texts: &[u8], p: usize, q: usize, known: &mut [u64; WORDS]) -> bool
    requires { (p ≤ q) × (q ≤ length texts.now) × (length known.old ≡ 896) × Remembers texts.now known.old }
    ensures { (result ≡ text_between texts.now p q) × (length known.new ≡ 896)
        × Remembers texts.now known.new }
{
    let mut segments = Segments::new(texts, known);
    let told = segments.is_text(p, q);
    let _ = segments.known();
    told
}
