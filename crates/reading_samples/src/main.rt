// Runs the reader on the sample files that stand packed on standard input, and says what it answers.
//
// A packed sample: five numbers of four bytes (the length of its name, the length of its file, how many entries and
// how many pairs are asked, and the profile), the name, the file, eight bytes for each entry's number, four bytes of usage
// and four of number for each pair. The next sample follows at once; tests/make_reading_samples.py writes them.
#![tactic(auto)]

use blorb::Entry;
use sampling::{Packed, Stop, begin, checksum, pair, refused, run};
use std::io;

// The four bytes of a usage or a type.
fn tag(rt: &impl Print, code: u64) -> io::Result<()> {
    rt.write_all(&code.to_be_bytes()[4..])
}

fn verdict(rt: &impl Print, file: &[u8], profile: u32) -> io::Result<()> {
    match reader::read(file, profile) {
        Ok(a) => print!(rt; "accepted {} bytes {} entries", a.length, a.count)?,
        Err(r) => refused(rt, r.number(), r.place)?,
    }
    println!(rt; "")
}

fn given(rt: &impl Print, e: Entry) -> io::Result<()> {
    tag(rt, e.usage.code())?;
    print!(rt; " {} at {}", e.number, e.start)
}

fn ask_entry(rt: &impl Print, file: &[u8], profile: u32, i: usize) -> io::Result<()> {
    print!(rt; " entry {i}: ")?;
    match reader::entry(file, profile, i) {
        Ok(e) => given(rt, e)?,
        Err(r) => refused(rt, r.number(), r.place)?,
    }
    println!(rt; "")
}

fn ask_pair(rt: &impl Print, file: &[u8], profile: u32, usage: [u8; 4], n: u32) -> io::Result<()> {
    print!(rt; " ")?;
    rt.write_all(&usage)?;
    print!(rt; " {n}: ")?;
    match reader::lookup(file, profile, usage, n) {
        Ok(found) => {
            tag(rt, u64::from(found.kind))?;
            print!(rt; " at {} length {}", found.start, found.length)?;
        }
        Err(r) => refused(rt, r.number(), r.place)?,
    }
    let part = reader::data(file, profile, usage, n);
    println!(rt; "; part {} sum {}", part.len(), checksum(part))
}

fn sample(rt: &impl Print, packed: &mut Packed) -> Result<(), Stop> {
    let [name, file, entries, pairs, profile] = packed.numbers::<5>()?;
    let name = packed.take(name as usize)?;
    let file = packed.take(file as usize)?;
    let entries = packed.rows(entries)?;
    let pairs = packed.rows(pairs)?;
    begin(rt, name)?;
    verdict(rt, file, profile)?;
    for row in entries {
        ask_entry(rt, file, profile, usize::from_be_bytes(*row))?;
    }
    for row in pairs {
        let (usage, n) = pair(row);
        ask_pair(rt, file, profile, usage, n)?;
    }
    Ok(())
}

fn main(rt: HostRuntime) -> io::Result<()> {
    run::<1048576, _>(&rt, |packed| sample(&rt, packed))
}
