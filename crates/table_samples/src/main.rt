// Runs the finding table on the samples that stand packed on standard input, and says what it answers.
//
// A packed sample: six numbers of four bytes (the length of its name, the length of its file, how many numbers its slice
// has, how many a second slice has, how many pairs are sought, and the profile), the name, the file, four bytes for each
// number of the slice, four bytes of usage and four of number for each pair. The next sample follows at once;
// tests/make_table_samples.py writes them.
#![tactic(auto)]

use blorb::Refusal;
use sampling::{Packed, Stop, begin, checksum_of_numbers, load, pair, refused, run};
use std::io;
use table::Searched;

fn say_checked(rt: &impl Print, answer: Result<(), Refusal>) -> io::Result<()> {
    match answer {
        Ok(()) => print!(rt; "accepted"),
        Err(r) => refused(rt, r.number(), r.place),
    }
}

fn say_searched(rt: &impl Print, answer: Searched) -> io::Result<()> {
    match answer.found {
        Ok(start) => print!(rt; "at {start}")?,
        Err(r) => refused(rt, r.number(), r.place)?,
    }
    print!(rt; " probes {}", answer.probes)
}

fn say_search(rt: &impl Print, t: &[u32], usage: [u8; 4], n: u32) -> io::Result<()> {
    print!(rt; " {} {n}: ", u32::from_be_bytes(usage))?;
    say_searched(rt, table::search(t, usage, n))?;
    print!(rt; "; in columns ")?;
    say_searched(rt, table::columns_search(t, usage, n))?;
    println!(rt; "")
}

// What was written in `t`.
fn say_built(rt: &impl Print, answer: Result<usize, Refusal>, t: &[u32]) -> io::Result<()> {
    match answer {
        Ok(rows) => print!(rt; "rows {rows}")?,
        Err(r) => refused(rt, r.number(), r.place)?,
    }
    print!(rt; " sum {}", checksum_of_numbers(t))
}

// The slice is checked as rows, and built anew.
fn ask_rows(rt: &impl Print, file: &[u8], profile: u32, t: &mut [u32]) -> io::Result<()> {
    say_checked(rt, table::check(file, profile, t))?;
    print!(rt; "; ")?;
    let built = table::build(file, profile, t);
    say_built(rt, built, t)?;
    print!(rt; "; then ")?;
    say_checked(rt, table::check(file, profile, t))?;
    println!(rt; "")
}

// The slice is checked as columns, and turned in a second one: into columns, and as columns into rows.
fn ask_columns(
    rt: &impl Print,
    file: &[u8],
    profile: u32,
    t: &[u32],
    second: &mut [u32],
) -> io::Result<()> {
    print!(rt; " columns: ")?;
    say_checked(rt, table::columns_check(file, profile, t))?;
    print!(rt; "; to columns ")?;
    let turned = table::to_columns(t, second);
    say_built(rt, turned, second)?;
    print!(rt; "; then ")?;
    say_checked(rt, table::columns_check(file, profile, second))?;
    print!(rt; "; to rows ")?;
    let back = table::to_rows(t, second);
    say_built(rt, back, second)?;
    print!(rt; "; then ")?;
    say_checked(rt, table::check(file, profile, second))?;
    println!(rt; "")
}

fn sample(rt: &impl Print, packed: &mut Packed) -> Result<(), Stop> {
    let [name, file, count, second_count, pairs, profile] = packed.numbers::<6>()?;
    let name = packed.take(name as usize)?;
    let file = packed.take(file as usize)?;
    let numbers = packed.take(4 * count as usize)?;
    let pairs = packed.rows(pairs)?;
    begin(rt, name)?;
    let mut t = [7; 16384];
    let mut second = [7; 16384];
    let (Some(t), Some(second)) = (
        t.get_mut(..count as usize),
        second.get_mut(..second_count as usize),
    ) else {
        println!(rt; "too many numbers")?;
        return Ok(());
    };
    load(numbers, t);
    ask_rows(rt, file, profile, t)?;
    load(numbers, t);
    ask_columns(rt, file, profile, t, second)?;
    for row in pairs {
        let (usage, n) = pair(row);
        say_search(rt, t, usage, n)?;
    }
    Ok(())
}

fn main(rt: HostRuntime) -> io::Result<()> {
    run::<1048576, _>(&rt, |packed| sample(&rt, packed))
}
