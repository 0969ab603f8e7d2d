// The first entry of a list whose key an earlier entry has, by blocks: the keys of a block are marked in a small array, all earlier entries are held
// against the marks, and only entries whose marks are all set, the suspects, are compared with the block's keys, many in one pass. Marks mislead at
// worst: no answer depends on them.
#![tactic(auto)]

mod marks;
mod source;
mod suspects;

ghost use Rattle.std.specs.Prelude.{◌≡◌, true, ◌+◌, ◌*◌, ◌≤◌, ◌<◌, length, MatchResult};
ghost use Rattle.repeats.specs.Keys.{row_key_of, EntriesInside, entry_key_of, list_key};
ghost use Rattle.repeats.specs.Source.{key, Inside};
ghost use Rattle.repeats.specs.Marks.{Marked};
ghost use Rattle.repeats.specs.Repeats.{among, first_repeat_of, Apart, Across};
ghost use Rattle.repeats.specs.Suspects.{held, Caught, Earlier, Free, RepeatsHeld, Once};

use marks::Scatter;
use source::{Cursor, Entries, Keys, Numbers, Rows};
use suspects::Suspects;

const BLOCK: usize = 1792;

// Sets the marks of the entries from `from` up to e, and no others.
fn mark_all<L: Keys>(from: Cursor<L>, e: usize, by: Scatter, marks: &mut [u64; 896])
    requires order { from.entry ≤ e }
    requires inside { Inside (L.source from.list) e }
    ensures { Marked marks.new by (key (L.source from.list)) from.entry e }
{
    *marks = [0; 896];
    let mut here = from;
    while here.entry < e {
        let k = here.key();
        let w = by.word(k);
        marks[w] |= by.bits(k);
        here = here.next();
    }
}

// Marks the entries from `from` on up to e. The keys of those whose marks were all set before become the suspects; stops early where there is no room for
// another one. The entries from b up to `from` are marked.
fn mark_round<L: Keys>(
    b: usize,
    from: Cursor<L>,
    e: usize,
    by: Scatter,
    marks: &mut [u64; 896],
    suspects: &mut Suspects,
) -> Cursor<L>
    requires first { b ≤ from.entry }
    requires order { from.entry < e }
    requires inside { Inside (L.source from.list) e }
    requires marked { Marked marks.old by (key (L.source from.list)) b from.entry }
    ensures list { result.list ≡ from.list }
    ensures further { from.entry < result.entry }
    ensures within { result.entry ≤ e }
    ensures held { RepeatsHeld suspects.new.keys suspects.new.count (key (L.source from.list)) b from.entry result.entry }
{
    // The suspects are counted in a local, and each key is stored before it counts: so a turn has no branch for it.
    let mut here = from;
    let mut count: usize = 0;
    while here.entry < e && count < 32 {
        let k = here.key();
        let w = by.word(k);
        let old = marks[w];
        suspects.keys[count] = k;
        count += by.covered(k, old);
        marks[w] = old | by.bits(k);
        here = here.next();
    }
    suspects.count = count;
    here
}

// How far the entries from `from` up to e go before one has a suspect's key that an earlier one of them has.
fn first_again<L: Keys>(from: Cursor<L>, e: usize, suspects: &Suspects) -> usize
    requires order { from.entry ≤ e }
    requires inside { Inside (L.source from.list) e }
    ensures first { from.entry ≤ result }
    ensures within { result ≤ e }
    ensures once { Once suspects.now.keys suspects.now.count (key (L.source from.list)) from.entry result }
    ensures again { result < e → among (key (L.source from.list)) (key (L.source from.list) result) result ≡ true }
{
    if suspects.count == 0 {
        return e;
    }
    let mut seen = [false; 32];
    let mut here = from;
    while here.entry < e {
        let k = here.key();
        if let Some(c) = suspects.position(k) {
            if seen[c] {
                return here.entry;
            }
            seen[c] = true;
        }
        here = here.next();
    }
    here.entry
}

// Goes through the entries from `from` up to e, or to the first that has the key of an earlier one of them. Each round has a factor of its own, so keys
// whose marks meet by one factor mislead one round only.
fn mark_block<L: Keys>(
    from: Cursor<L>,
    e: usize,
    marks: &mut [u64; 896],
    suspects: &mut Suspects,
) -> Result<Cursor<L>, usize>
    requires order { from.entry ≤ e }
    requires inside { Inside (L.source from.list) e }
    ensures { MatchResult result
        (λ next. (next.list ≡ from.list) × (next.entry ≡ e) × Apart (key (L.source from.list)) from.entry e)
        (λ end. (from.entry ≤ end) × (end < e) × Apart (key (L.source from.list)) from.entry end
        × (among (key (L.source from.list)) (key (L.source from.list) end) end ≡ true)) }
{
    let mut here = from;
    let mut by = Scatter::of_block(from.entry);
    while here.entry < e {
        mark_all(from, here.entry, by, marks);
        let next = mark_round(from.entry, here, e, by, marks, suspects);
        let end = first_again(from, next.entry, suspects);
        if end < next.entry {
            return Err(end);
        }
        here = next;
        by = by.next();
    }
    Ok(here)
}

// Holds the entries from `from` on up to b against the marks. The keys of those whose marks are all set become the suspects; stops early where there is
// no room for another one.
fn hold_round<L: Keys>(
    from: Cursor<L>,
    b: usize,
    by: Scatter,
    marks: &[u64; 896],
    suspects: &mut Suspects,
) -> Cursor<L>
    requires order { from.entry < b }
    requires inside { Inside (L.source from.list) b }
    ensures list { result.list ≡ from.list }
    ensures further { from.entry < result.entry }
    ensures within { result.entry ≤ b }
    ensures caught { Caught marks.now by suspects.new.keys suspects.new.count (key (L.source from.list)) from.entry result.entry }
    ensures earlier { Earlier suspects.new.keys suspects.new.count (key (L.source from.list)) b }
{
    let mut here = from;
    let mut count: usize = 0;
    while here.entry < b && count < 32 {
        let k = here.key();
        let old = marks[by.word(k)];
        suspects.keys[count] = k;
        count += by.covered(k, old);
        here = here.next();
    }
    suspects.count = count;
    here
}

// How far the entries from `from` up to e go before one has a suspect's key.
fn first_held<L: Keys>(from: Cursor<L>, e: usize, suspects: &Suspects) -> usize
    requires order { from.entry ≤ e }
    requires inside { Inside (L.source from.list) e }
    ensures first { from.entry ≤ result }
    ensures within { result ≤ e }
    ensures free { Free suspects.now.keys suspects.now.count (key (L.source from.list)) from.entry result }
    ensures hit { result < e → held suspects.now.keys suspects.now.count (key (L.source from.list) result) ≡ true }
{
    if suspects.count == 0 {
        return e;
    }
    let mut here = from;
    while here.entry < e {
        let k = here.key();
        if suspects.contains(k) {
            return here.entry;
        }
        here = here.next();
    }
    here.entry
}

// How far the entries from `from` up to e go before one has the key of an entry in front of `from`. Each round has a factor of its own here too.
fn first_across<L: Keys>(
    from: Cursor<L>,
    e: usize,
    marks: &mut [u64; 896],
    suspects: &mut Suspects,
) -> usize
    requires order { from.entry ≤ e }
    requires inside { Inside (L.source from.list) e }
    ensures first { from.entry ≤ result }
    ensures within { result ≤ e }
    ensures across { Across (key (L.source from.list)) from.entry from.entry result }
    ensures hit { result < e → among (key (L.source from.list)) (key (L.source from.list) result) result ≡ true }
{
    let b = from.entry;
    let mut best = e;
    let mut here = Cursor::start(from.list);
    let mut by = Scatter::of_block(b);
    while here.entry < b {
        mark_all(from, best, by, marks);
        here = hold_round(here, b, by, marks, suspects);
        best = first_held(from, best, suspects);
        by = by.next();
    }
    best
}

// Where the block that begins with entry b ends.
fn block_end(b: usize, n: usize) -> usize
    requires { b < n }
    ensures { (b < result) × (result ≤ n) }
{
    if n - b < BLOCK { n } else { b + BLOCK }
}

// The entry up to which the keys rise from the first one on, or n.
fn rising<L: Keys>(list: L, n: usize) -> Cursor<L>
    requires { Inside (L.source list) n }
    ensures list { result.list ≡ list }
    ensures within { result.entry ≤ n }
    ensures apart { Apart (key (L.source list)) 0 result.entry }
{
    let mut here = Cursor::start(list);
    if n == 0 {
        return here;
    }
    let mut top = here.key();
    here = here.next();
    while here.entry < n {
        let k = here.key();
        if k <= top {
            return here;
        }
        top = k;
        here = here.next();
    }
    here
}

// The search among n entries, of which those before `from` are known to differ. What `marks` holds before and afterwards does not matter.
fn first_repeat<L: Keys>(from: Cursor<L>, n: usize, marks: &mut [u64; 896]) -> Option<usize>
    requires order { from.entry ≤ n }
    requires inside { Inside (L.source from.list) n }
    requires apart { Apart (key (L.source from.list)) 0 from.entry }
    ensures { result ≡ first_repeat_of (key (L.source from.list)) n }
{
    let mut here = from;
    let mut suspects = Suspects::new();
    while here.entry < n {
        let e = block_end(here.entry, n);
        match mark_block(here, e, marks, &mut suspects) {
            Ok(next) => {
                let best = first_across(here, e, marks, &mut suspects);
                if best < e {
                    return Some(best);
                }
                here = next;
            }
            Err(end) => return Some(first_across(here, end, marks, &mut suspects)),
        }
    }
    None
}

// The search in a file. Its marks are made only where they are needed: clearing them takes longer than a short list that rises.
fn first_in_file<L: Keys>(list: L, n: usize) -> Option<usize>
    requires { Inside (L.source list) n }
    ensures { result ≡ first_repeat_of (key (L.source list)) n }
{
    let from = rising(list, n);
    if n <= from.entry {
        return None;
    }
    let mut marks = [0u64; 896];
    first_repeat(from, n, &mut marks)
}

// The first of n rows of `step` bytes from `base` on whose first number an earlier row has.
pub fn in_rows(s: &[u8], step: usize, base: usize, n: usize) -> Option<usize>
    requires { (4 ≤ step) × (base + step * n ≤ length s.now) }
    ensures { result ≡ first_repeat_of (row_key_of s.now step base) n }
{
    first_in_file(
        Rows {
            bytes: s,
            step,
            base,
        },
        n,
    )
}

// The first of n entries from `base` on, each with a text behind it, whose pair of numbers an earlier entry has.
pub fn in_entries(s: &[u8], base: usize, n: usize) -> Option<usize>
    requires { EntriesInside s.now base n }
    ensures { result ≡ first_repeat_of (entry_key_of s.now base) n }
{
    first_in_file(Entries { bytes: s, base }, n)
}

// The first of n rows of four numbers whose first two an earlier row has. The caller lends the marks: it may have used the array for something else before.
pub fn in_list(rows: &[u32], n: usize, marks: &mut [u64; 896]) -> Option<usize>
    requires { (4 * n ≤ length rows.now) × (length marks.old ≡ 896) }
    ensures { result ≡ first_repeat_of (list_key rows.now) n }
{
    first_repeat(rising(Numbers { numbers: rows }, n), n, marks)
}
