// Lists and picks the FORMs of the group files that stand packed on standard input, and says what is answered.
//
// A packed sample: four numbers of four bytes (the length of its name, the length of its file, how many numbers its slice
// has, how many rows are picked), the name, the file. The next sample follows at once; tests/make_form_samples.py writes them.
#![tactic(auto)]

use sampling::{Packed, Stop, begin, checksum, checksum_of_numbers, refused, run};
use std::io;

// The answer of the list, and what is in the slice then.
fn say_list(rt: &impl Print, file: &[u8], rows: &mut [u32]) -> io::Result<()> {
    match groups::list(file, rows) {
        Ok(n) => print!(rt; "rows {n}")?,
        Err(r) => refused(rt, r.number(), r.place)?,
    }
    println!(rt; " sum {}", checksum_of_numbers(rows))
}

fn say_pick(rt: &impl Print, file: &[u8], i: usize) -> io::Result<()> {
    print!(rt; " {i}: ")?;
    match groups::pick(file, i) {
        Ok(picked) => print!(rt; "at {} length {}", picked.start, picked.length)?,
        Err(r) => refused(rt, r.number(), r.place)?,
    }
    println!(rt; " sum {}", checksum(groups::picked(file, i)))
}

fn sample(rt: &impl Print, packed: &mut Packed) -> Result<(), Stop> {
    let [name, file, count, picks] = packed.numbers::<4>()?;
    let name = packed.take(name as usize)?;
    let file = packed.take(file as usize)?;
    begin(rt, name)?;
    let mut rows = [7; 16384];
    let Some(rows) = rows.get_mut(..count as usize) else {
        println!(rt; "too many numbers")?;
        return Ok(());
    };
    say_list(rt, file, rows)?;

    // The first rows are picked, and one that no file has.
    for i in 0..picks {
        say_pick(rt, file, i as usize)?;
    }
    say_pick(rt, file, usize::MAX)?;
    Ok(())
}

fn main(rt: HostRuntime) -> io::Result<()> {
    run::<1048576, _>(&rt, |packed| sample(&rt, packed))
}
