// Runs the reading of texts on the sample files that stand packed on standard input, and says what it answers.
//
// A packed sample: five numbers of four bytes (the length of its name and of its file, the profile, and the usage and the number of the pair that is
// asked for), the name, the file. Asked are the entries 0, 1 and 2, and the pair. The next sample follows at once; tests/make_text_samples.py
// writes them.
#![tactic(auto)]

use sampling::{Packed, Stop, hex, refused, run};
use std::io;

// The bytes of the text, in hexadecimal; there are none where a call refuses.
fn part(rt: &impl Print, bytes: &[u8]) -> io::Result<()> {
    print!(rt; " text ")?;
    hex(rt, bytes)
}

fn entry(rt: &impl Print, file: &[u8], profile: u32, i: u64) -> io::Result<()> {
    print!(rt; "  entry {i}: ")?;
    match descriptions::describe(file, profile, i) {
        Ok(d) => {
            print!(rt;
                "usage {} number {} start {} length {}",
                d.usage, d.number, d.start, d.length
            )?
        }
        Err(r) => refused(rt, r.number(), r.place)?,
    }
    part(rt, descriptions::text(file, profile, i))
}

fn pair(rt: &impl Print, file: &[u8], profile: u32, usage: [u8; 4], number: u32) -> io::Result<()> {
    print!(rt; "  pair: ")?;
    match descriptions::tell(file, profile, usage, number) {
        Ok(told) => print!(rt; "start {} length {}", told.start, told.length)?,
        Err(r) => refused(rt, r.number(), r.place)?,
    }
    part(rt, descriptions::told_text(file, profile, usage, number))
}

fn sample(rt: &impl Print, packed: &mut Packed) -> Result<(), Stop> {
    let [name, file, profile] = packed.numbers::<3>()?;
    let usage = packed.bytes()?;
    let number = packed.number()?;
    let name = packed.take(name as usize)?;
    let file = packed.take(file as usize)?;
    rt.write_all(name)?;
    println!(rt; "")?;
    for i in 0..3 {
        entry(rt, file, profile, i)?;
    }
    pair(rt, file, profile, usage, number)?;
    Ok(())
}

fn main(rt: HostRuntime) -> io::Result<()> {
    run::<262144, _>(&rt, |packed| sample(&rt, packed))
}
