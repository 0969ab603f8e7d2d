// Runs the call on sound lengths on the samples that stand packed on standard input, and says what it answers.
//
// A packed sample: two numbers of four bytes (the length of its name and of its bytes), the name, the bytes. The next sample
// follows at once; tests/make_sound_samples.py writes them.
#![tactic(auto)]

use sampling::{Packed, Stop, begin, refused, run};
use std::io;

fn told(rt: &impl Print, bytes: &[u8]) -> io::Result<()> {
    match aiff::length(bytes) {
        Ok(s) => {
            print!(rt;
                "channels {} frames {} sample size {}",
                s.channels, s.frames, s.sample_size
            )?;
            print!(rt; " rate {} seconds {}", s.rate, s.seconds)?;
        }
        Err(r) => refused(rt, r.number(), r.place)?,
    }
    println!(rt; "")
}

fn sample(rt: &impl Print, packed: &mut Packed) -> Result<(), Stop> {
    let [name, bytes] = packed.numbers::<2>()?;
    let name = packed.take(name as usize)?;
    let bytes = packed.take(bytes as usize)?;
    begin(rt, name)?;
    told(rt, bytes)?;
    Ok(())
}

fn main(rt: HostRuntime) -> io::Result<()> {
    run::<262144, _>(&rt, |packed| sample(&rt, packed))
}
