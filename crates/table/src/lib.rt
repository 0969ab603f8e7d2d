// The finding table of a Blorb file (02, P2): three numbers of 32 bits to a row, built in a lent slice, checked and searched; and the same table in
// three columns (02, P10), turned into rows and back.
#![tactic(auto)]

ghost use Rattle.std.specs.Prelude.{◌≡◌, ◌+◌, ◌*◌, ◌-◌, ◌/◌, ◌≤◌, ◌<◌, ◌^◌, true, ◌&&◌, length, get_or, drop, eqb, leb, IfSome};
ghost use mathlib.Core.List.{◌++◌, Memᴰ};
ghost use Rattle.blorb.specs.Bytes.{rd32};
ghost use Rattle.blorb.specs.Format.{entry_from};
ghost use Rattle.index.specs.Entries.{place};
ghost use Rattle.rows.specs.Rows.{row_in, rows_of, columns_of, flat, flat_columns};
ghost use Rattle.rows.specs.Order.{sorted};
ghost use Rattle.rows.specs.Bridging.{Alike, NoTwice, Within, rank, held};
ghost use Rattle.table.specs.Bridging.{first_entries, rows_in};
ghost use Rattle.table.specs.Answers.{table_of, room_for, build_of, turn_of, written, agree, check_of, search_of};

use blorb::{Fault, Refusal};
use rows::Table;

// What a search found, and the number of rows looked at.
#[derive(Clone, Copy)]
pub struct Searched {
    pub found: Result<u32, Refusal>,
    pub probes: usize,
}

// The entries of an accepted file.
#[derive(Drop)]
struct Index<'a> {
    file: &'a [u8],
    count: usize,
    ghost few: { count ≤ 4096 },
    ghost room: { place count ≤ length file.now },
}

// The rows of a slice, one after another.
fn by_rows(numbers: &[u32]) -> Table<'_>
    ensures numbers { result.numbers.now ≡ numbers.now }
    ensures whole { result.rows ≡ length numbers.now / 3 }
    ensures rows { rows_in result ≡ rows_of numbers.now }
{
    Table {
        numbers,
        rows: numbers.len() / 3,
        step: 3,
        gap: 1,
    }
}

// The rows of a slice in three columns, each as long as there are whole rows.
fn by_columns(numbers: &[u32]) -> Table<'_>
    ensures numbers { result.numbers.now ≡ numbers.now }
    ensures whole { result.rows ≡ length numbers.now / 3 }
    ensures rows { rows_in result ≡ columns_of numbers.now }
{
    let rows = numbers.len() / 3;
    Table {
        numbers,
        rows,
        step: 1,
        gap: rows,
    }
}

fn code(usage: [u8; 4]) -> u32
    ensures { result ≡ rd32 usage }
{
    u32::from_be_bytes(usage)
}

fn find(t: &Table<'_>, usage: [u8; 4], number: u32) -> Searched
    ensures { result ≡ search_of (rows_in t.now) (rd32 usage) number }
{
    let spot = t.halve(code(usage), number);
    let probes = spot.probes;
    match spot.row {
        Ok(row) => Searched {
            found: Ok(t.start(row)),
            probes,
        },
        Err(_) => Searched {
            found: Err(Refusal {
                fault: Fault::NotThere,
                place: 0,
            }),
            probes,
        },
    }
}

// The start of the row (usage, number), by halving; with the number of rows looked at.
pub fn search(table: &[u32], usage: [u8; 4], number: u32) -> Searched
    ensures { result ≡ search_of (rows_of table.now) (rd32 usage) number }
{
    find(&by_rows(table), usage, number)
}

// The same in a table of three columns.
pub fn columns_search(columns: &[u32], usage: [u8; 4], number: u32) -> Searched
    ensures { result ≡ search_of (columns_of columns.now) (rd32 usage) number }
{
    find(&by_columns(columns), usage, number)
}

impl Index<'_> {
    // The pair of entry i.
    fn key(&self, i: usize) -> u64
        requires { i < self.now.count }
        ensures { (result ≡ rd32 (drop (place i) self.now.file.now) * 4294967296 + rd32 (drop (place i + 4) self.now.file.now))
            × (rd32 (drop (place i + 4) self.now.file.now) < 4294967296) }
    {
        let at = 24 + 12 * i;
        blorb::be32_at(self.file, at) * 4294967296 + blorb::be32_at(self.file, at + 4)
    }

    // The numbers of entry i.
    fn usage(&self, i: usize) -> u32
        requires { i < self.now.count }
        ensures { result ≡ rd32 (drop (place i) self.now.file.now) }
    {
        blorb::be32_at(self.file, 24 + 12 * i) as u32
    }

    fn number(&self, i: usize) -> u32
        requires { i < self.now.count }
        ensures { result ≡ rd32 (drop (place i + 4) self.now.file.now) }
    {
        blorb::be32_at(self.file, 24 + 12 * i + 4) as u32
    }

    fn start(&self, i: usize) -> u32
        requires { i < self.now.count }
        ensures { result ≡ rd32 (drop (place i + 8) self.now.file.now) }
    {
        blorb::be32_at(self.file, 24 + 12 * i + 8) as u32
    }

    // A number below 8 for the usage of entry i: the first letters of the four usages differ by 8.
    fn letter(&self, i: usize) -> usize
        requires { i < self.now.count }
        ensures { result < 8 }
    {
        (self.file[24 + 12 * i] % 8) as usize
    }
}

// Whether entry i is that row: told only where it is true.
fn row_holds(index: &Index<'_>, i: usize, t: &Table<'_>, row: usize) -> bool
    requires entry { i < index.now.count }
    requires row { row < t.now.rows }
    ensures { result ≡ true → row_in t.now.numbers.now t.now.step t.now.gap row ≡ entry_from (drop (place i) index.now.file.now) }
{
    if t.key(row) != index.key(i) {
        return false;
    }
    t.start(row) == index.start(i)
}

// The row that holds entry i: the row `guess` if it does, else by halving.
fn row_of(index: &Index<'_>, i: usize, t: &Table<'_>, guess: usize) -> Option<usize>
    requires { i < index.now.count }
    ensures { IfSome result (λ row. (row < t.now.rows) × Memᴰ (entry_from (drop (place i) index.now.file.now)) (rows_in t.now)) }
{
    if guess < t.rows {
        if row_holds(index, i, t, guess) {
            return Some(guess);
        }
    }
    let spot = t.halve(index.usage(i), index.number(i));
    let Ok(row) = spot.row else {
        return None;
    };
    if row_holds(index, i, t, row) {
        return Some(row);
    }
    None
}

// Whether each of the file's entries is a row. Each is looked for behind the last one of its usage.
fn lists(index: &Index<'_>, t: &Table<'_>) -> bool
    ensures { result ≡ true → Within (first_entries index.now.count index.now.file.now) (rows_in t.now) }
{
    let mut next = [0usize; 8];
    for i in 0..index.count {
        let letter = index.letter(i);
        let Some(row) = row_of(index, i, t, next[letter]) else {
            return false;
        };
        next[letter] = row + 1;
    }
    true
}

// Whether the slice is just the table of the file's entries: told in few steps, and only where it is true.
fn quick(index: &Index<'_>, t: &Table<'_>) -> bool
    requires whole { t.now.rows ≡ length t.now.numbers.now / 3 }
    requires once { NoTwice (first_entries index.now.count index.now.file.now) }
    ensures { result ≡ true → (length t.now.numbers.now ≡ 3 * index.now.count) × (rows_in t.now ≡ sorted
        (first_entries index.now.count index.now.file.now)) }
{
    if t.numbers.len() != 3 * index.count {
        return false;
    }
    if !t.rises() {
        return false;
    }
    lists(index, t)
}

// Whether (usage, number, start) is one of the file's entries, and `at` of them are before it.
fn ranked(index: &Index<'_>, usage: u32, number: u32, start: u32, at: usize) -> bool
    ensures { result ≡ (eqb (rank usage number (first_entries index.now.count index.now.file.now)) at && held usage number start
        (first_entries index.now.count index.now.file.now)) }
{
    let sought = rows::key(usage, number);
    let mut below: usize = 0;
    let mut there = false;
    for j in 0..index.count {
        let k = index.key(j);
        let s = index.start(j);
        below += usize::from(k < sought);
        there = there | ((k == sought) & (s == start));
    }
    (below == at) & there
}

// The pair of the last row, or 0 where there is none: no pair stands before it.
fn last_key(t: &Table<'_>) -> u64
    ensures { (0 < t.now.rows → (result ≡ get_or t.now.numbers.now ((t.now.rows - 1) * t.now.step) 0 * 4294967296
        + get_or t.now.numbers.now ((t.now.rows - 1) * t.now.step + t.now.gap) 0)
        × (get_or t.now.numbers.now ((t.now.rows - 1) * t.now.step + t.now.gap) 0 < 4294967296)) × (0 < result → 0 < t.now.rows) }
{
    if t.rows == 0 {
        return 0;
    }
    t.key(t.rows - 1)
}

// Whether the first `i` rows are right: told only where it is true. They rise, as many entries as they are do not stand behind the last of them,
// and each of those is one of them. The first `low` rows are known to be right: an entry before the last of them is one of them and is not looked up,
// so at most i - low + 2 are.
fn front(index: &Index<'_>, t: &Table<'_>, low: usize, i: usize) -> bool
    requires once { NoTwice (first_entries index.now.count index.now.file.now) }
    requires rows { i ≤ t.now.rows }
    requires entries { i ≤ index.now.count }
    requires below { low ≤ i }
    requires known { Alike (rows_in t.now) (sorted (first_entries index.now.count index.now.file.now)) low }
    ensures { result ≡ true → Alike (rows_in t.now) (sorted (first_entries index.now.count index.now.file.now)) i }
{
    if i == 0 {
        return true;
    }
    let first = t.first(i);
    if !first.rises() {
        return false;
    }
    let last = last_key(&first);
    let known = last_key(&t.first(low));
    let mut next = [0usize; 8];
    let mut n: usize = 0;
    for j in 0..index.count {
        let k = index.key(j);
        if last < k {
            continue;
        }
        if k < known {
            n += 1;
            continue;
        }
        let letter = index.letter(j);
        let Some(row) = row_of(index, j, &first, next[letter]) else {
            return false;
        };
        next[letter] = row + 1;
        n += 1;
    }
    n == i
}

// A number of rows that are right, by halving: as many as there are.
fn aligned(index: &Index<'_>, t: &Table<'_>, most: usize) -> usize
    requires once { NoTwice (first_entries index.now.count index.now.file.now) }
    requires rows { most ≤ t.now.rows }
    requires entries { most ≤ index.now.count }
    ensures { (result ≤ most) × Alike (rows_in t.now) (sorted (first_entries index.now.count index.now.file.now)) result }
{
    let mut low: usize = 0;
    let mut high = most + 1;
    while low + 1 < high {
        let mid = (low + high) / 2;
        if front(index, t, low, mid) {
            low = mid;
        } else {
            high = mid;
        }
    }
    low
}

// The first row that is not the one it should be, or the smaller of the two counts.
fn differing(index: &Index<'_>, t: &Table<'_>) -> usize
    requires { NoTwice (first_entries index.now.count index.now.file.now) }
    ensures { result ≡ agree (rows_in t.now) (sorted (first_entries index.now.count index.now.file.now)) }
{
    let most = t.rows.min(index.count);
    let right = aligned(index, t, most);
    for i in right..most {
        if !ranked(index, t.usage(i), t.number(i), t.start(i), i) {
            return i;
        }
    }
    most
}

fn compare(file: &[u8], profile: u32, t: &Table<'_>) -> Result<(), Refusal>
    requires { t.now.rows ≡ length t.now.numbers.now / 3 }
    ensures { result ≡ check_of profile file.now (rows_in t.now) (length t.now.numbers.now) }
{
    let accepted = reader::read(file, profile)?;
    let count = accepted.count;
    let index = Index { file, count };
    if quick(&index, t) {
        return Ok(());
    }
    let place = differing(&index, t);
    if (t.numbers.len() == 3 * count) & (place == count) {
        return Ok(());
    }
    Err(Refusal {
        fault: Fault::TableStale,
        place,
    })
}

// Whether the slice holds the entries of that file of this profile, each once, in the order of the rows, and nothing more.
pub fn check(file: &[u8], profile: u32, table: &[u32]) -> Result<(), Refusal>
    ensures { result ≡ check_of profile file.now (rows_of table.now) (length table.now) }
{
    compare(file, profile, &by_rows(table))
}

// The same of a table of three columns.
pub fn columns_check(file: &[u8], profile: u32, columns: &[u32]) -> Result<(), Refusal>
    ensures { result ≡ check_of profile file.now (columns_of columns.now) (length columns.now) }
{
    compare(file, profile, &by_columns(columns))
}

// The rows of the file's entries, in the file's order.
fn put_entries(index: &Index<'_>, t: &mut [u32])
    requires { 3 * index.now.count ≤ length t.old }
    ensures { t.new ≡ flat (first_entries index.now.count index.now.file.now) ++ drop (3 * index.now.count) t.old }
{
    for row in 0..index.count {
        let usage = index.usage(row);
        let number = index.number(row);
        let start = index.start(row);
        rows::put_row(t, 3 * row, usage, number, start);
    }
}

// The rows of the file's entries, in order: those of a file in order need no sorting.
fn fill(index: &Index<'_>, t: &mut [u32])
    requires room { 3 * index.now.count ≤ length t.old }
    requires once { NoTwice (first_entries index.now.count index.now.file.now) }
    ensures { t.new ≡ flat (sorted (first_entries index.now.count index.now.file.now)) ++ drop (3 * index.now.count) t.old }
{
    put_entries(index, t);
    let rows = Table {
        numbers: t,
        rows: index.count,
        step: 3,
        gap: 1,
    };
    if rows.rises() {
        return;
    }
    rows::sort(t, index.count);
}

// The number of the rows, where a slice of `size` numbers has room for them.
fn room(rows: usize, size: usize) -> Result<usize, Refusal>
    requires { 3 * rows < 2 ^ 64 }
    ensures { result ≡ room_for (leb (3 * rows) size) rows }
{
    if size < 3 * rows {
        return Err(Refusal {
            fault: Fault::TableRoom,
            place: 0,
        });
    }
    Ok(rows)
}

// The table of a file of this profile at the front of the slice: the number of its rows.
pub fn build(file: &[u8], profile: u32, table: &mut [u32]) -> Result<usize, Refusal>
    ensures { (result ≡ build_of profile file.now (length table.old))
        × (table.new ≡ written result (flat (table_of file.now)) table.old) }
{
    let accepted = reader::read(file, profile)?;
    let count = room(accepted.count, table.len())?;
    fill(&Index { file, count }, table);
    Ok(count)
}

// The rows of a table as three columns at the front of a second slice: how many rows they are.
pub fn to_columns(table: &[u32], columns: &mut [u32]) -> Result<usize, Refusal>
    ensures { (result ≡ turn_of (rows_of table.now) (length columns.old)) × (columns.new ≡ written result
        (flat_columns (rows_of table.now)) columns.old) }
{
    let rows = room(table.len() / 3, columns.len())?;
    rows::put_columns(table, rows, columns);
    Ok(rows)
}

// The rows of a table of three columns, one after another at the front of a second slice: how many rows they are.
pub fn to_rows(columns: &[u32], table: &mut [u32]) -> Result<usize, Refusal>
    ensures { (result ≡ turn_of (columns_of columns.now) (length table.old))
        × (table.new ≡ written result (flat (columns_of columns.now)) table.old) }
{
    let rows = room(columns.len() / 3, table.len())?;
    rows::put_rows(columns, rows, table);
    Ok(rows)
}
