// The entries of an index, and refusals 12 to 16 and 27.
ghost use Rattle.std.specs.Prelude.{◌≡◌, ◌+◌, ◌*◌, ◌≤◌, ◌<◌, ◌||◌, not, length, drop, eqb};
ghost use Rattle.blorb.specs.Verdict.{accept, chunk_fault, index_fault};
ghost use Rattle.blorb.specs.Format.{is_start, entries_in};
ghost use Rattle.blorb.specs.Rules.{plain_allows_of};
ghost use Rattle.blorb.specs.Usages.{code_of};
ghost use Rattle.blorb.specs.declared.Usage.TheVariants.{Exec};
ghost use Rattle.chunks.specs.Walk.{chunk_from, chunks_from, walk_from, Reached};
ghost use Rattle.blorb.specs.Refusals.{verdict_of};
ghost use Rattle.index.specs.Entries.{
  start_at,
  place,
  typed_at,
  entry_fault,
  unstarted_fault,
  judged_by,
  same_pair,
  usage_at,
  number_at,
  slot_of,
  entries_from,
  place_in,
};
ghost use Rattle.index.specs.Hits.{hit_in};

use blorb::{Fault, Refusal, Usage};

// Refusals 10 and 11: the index's length and count.
pub fn shape(s: &[u8]) -> Result<(), Refusal>
    requires { (12 < length s.now) × (walk_from s.now 12 ≡ accept) }
    ensures { verdict_of result ≡ index_fault (chunk_from s.now 12).body }
{
    let m = blorb::be32_at(s, 16);
    if m < 4 {
        return Err(Refusal {
            fault: Fault::IndexLength,
            place: 16,
        });
    }
    let count = blorb::be32_at(s, 20);
    if m != 4 + 12 * count {
        return Err(Refusal {
            fault: Fault::IndexLength,
            place: 16,
        });
    }
    if 4096 < count {
        return Err(Refusal {
            fault: Fault::TooMany,
            place: 20,
        });
    }
    Ok(())
}

// The place of the entry (code, number) among `count` entries.
pub fn find_place(s: &[u8], count: usize, code: u64, number: u64) -> Option<usize>
    requires { (count ≤ 4096) × (place count ≤ length s.now) }
    ensures { result ≡ place_in code number (entries_in count (drop 24 s.now)) }
{
    for i in 0..count {
        let p = 24 + 12 * i;
        if (blorb::be32_at(s, p) == code) & (blorb::be32_at(s, p + 4) == number) {
            return Some(i);
        }
    }
    None
}

// Where its chunk begins.
pub fn find(s: &[u8], count: usize, code: u64, number: u64) -> Option<usize>
    requires { (count ≤ 4096) × (place count ≤ length s.now) }
    ensures { result ≡ hit_in code number (entries_in count (drop 24 s.now)) }
{
    let i = find_place(s, count, code, number)?;
    Some(blorb::be32_at(s, 24 + 12 * i + 8) as usize)
}

pub fn numbered(code: u64, number: u64) -> bool
    ensures { result ≡ (not (eqb code (code_of Exec)) || eqb number 0) }
{
    (code != Usage::EXEC) | (number == 0)
}

// The pair of the entry at `p` as one number.
fn pair_key(s: &[u8], p: usize) -> u64
    requires { p + 8 ≤ length s.now }
    ensures { (result ≡ usage_at s.now p * 4294967296 + number_at s.now p) × (number_at s.now p < 4294967296) }
{
    blorb::be32_at(s, p) * 4294967296 + blorb::be32_at(s, p + 4)
}

pub fn same_pair(s: &[u8], i: usize, j: usize) -> bool
    requires { (place i + 8 ≤ length s.now) × (place j + 8 ≤ length s.now) }
    ensures { result ≡ same_pair s.now i j }
{
    pair_key(s, 24 + 12 * i) == pair_key(s, 24 + 12 * j)
}

// The place of a usage among the eight tops.
pub fn slot(code: u64) -> usize
    ensures { (result ≡ slot_of code) × (result < 8) }
{
    (code / 16777216 % 8) as usize
}

// Rule 5 for plain files, of the chunk at `at`. It stands in the loop over the entries, as the rule itself does.
#[inline(always)]
pub fn plainly_typed(s: &[u8], usage: Usage, at: usize) -> bool
    requires { (at < length s.now) × (chunk_fault at (drop at s.now) ≡ accept) }
    ensures { result ≡ plain_allows_of (code_of usage) (chunk_from s.now at) }
{
    let from = at + 8;
    let to = from + blorb::be32_at(s, at + 4) as usize;
    usage.plain_allows(blorb::be32_at(s, at), &s[from..to])
}

// Rule 5: the chunk at `at` has a type that the usage allows under the profile.
fn typed(s: &[u8], profile: u32, usage: Usage, at: usize) -> bool
    requires { (at < length s.now) × (chunk_fault at (drop at s.now) ≡ accept) }
    ensures { result ≡ typed_at profile s.now (code_of usage) at }
{
    if plainly_typed(s, usage, at) {
        return true;
    }
    usage.also_allows(profile, blorb::be32_at(s, at))
}

// Whether a chunk behind the index begins at `start`: the walk goes on from `from`, where one begins, if `start` is not before it. Only an
// entry out of order has one before it, and is refused: that walk from the index on comes once in a file.
fn begins_behind(s: &[u8], base: usize, from: usize, start: usize) -> bool
    requires { (walk_from s.now base ≡ accept) × (walk_from s.now from ≡ accept) × Reached s.now base from }
    ensures { result ≡ is_start start base (chunks_from s.now base) }
{
    if from <= start {
        return chunks::begins(s, from, start);
    }
    chunks::begins(s, base, start)
}

// The fault of the entry at `p` where no chunk begins at its start: refusal 12 or 13.
fn unstarted(s: &[u8], p: usize) -> Result<usize, Refusal>
    requires { p + 12 ≤ length s.now }
    ensures { result ≡ judged_by (unstarted_fault s.now p) 0 }
{
    let Some(_) = Usage::of_code(blorb::be32_at(s, p)) else {
        return Err(Refusal {
            fault: Fault::UnknownUsage,
            place: p,
        });
    };
    Err(Refusal {
        fault: Fault::Start,
        place: p + 8,
    })
}

// Refusals 12 to 15 of the entry at `p`. The start is looked for first: the usage's test then leads straight to the one of its types.
fn judge(s: &[u8], profile: u32, base: usize, from: usize, p: usize) -> Result<usize, Refusal>
    requires { (p + 12 ≤ length s.now) × (walk_from s.now base ≡ accept) × (walk_from s.now from ≡ accept) × Reached s.now base from }
    ensures { result ≡ judged_by (entry_fault profile s.now base p) (start_at s.now p) }
{
    let start = blorb::be32_at(s, p + 8) as usize;
    if !begins_behind(s, base, from, start) {
        return unstarted(s, p);
    }
    let code = blorb::be32_at(s, p);
    let Some(usage) = Usage::of_code(code) else {
        return Err(Refusal {
            fault: Fault::UnknownUsage,
            place: p,
        });
    };
    if !typed(s, profile, usage, start) {
        return Err(Refusal {
            fault: Fault::Type,
            place: p,
        });
    }
    if !numbered(code, blorb::be32_at(s, p + 4)) {
        return Err(Refusal {
            fault: Fault::ExecNumber,
            place: p + 4,
        });
    }
    Ok(start)
}

// Refusals 12 to 16 and 27, entry by entry. For each usage a number above all of its numbers so far is kept, so that
// the search among the earlier entries runs only for an entry that could repeat one of them.
pub fn entries(s: &[u8], profile: u32, count: usize) -> Result<(), Refusal>
    requires { (count ≤ 4096) × (place count ≤ length s.now) × (walk_from s.now (place count) ≡ accept) }
    ensures { verdict_of result ≡ entries_from profile s.now (place count) 0 count }
{
    let base = 24 + 12 * count;
    let mut answer = Ok(());
    let mut tops = [0u64; 8];
    let mut found = base;
    'entries: for j in 0..count {
        let p = 24 + 12 * j;
        let before = found;
        found = judge(s, profile, base, before, p)?;
        let k = slot(blorb::be32_at(s, p));
        let number = blorb::be32_at(s, p + 4);
        if tops[k] <= number {
            tops[k] = number + 1;
        } else {
            for i in 0..j {
                if same_pair(s, i, j) {
                    answer = Err(Refusal {
                        fault: Fault::Repeated,
                        place: p,
                    });
                    break 'entries;
                }
            }
        }
        if found < before {
            let place = p + 8;
            return Err(Refusal {
                fault: Fault::Order,
                place,
            });
        }
    }
    answer
}
