// Runs the call on scaled pictures on the samples that stand packed on standard input, and says what it answers.
//
// A packed sample: twelve numbers of four bytes (the length of its name, the length of its file, the profile, the picture's
// number, and window width, window height, width and height in two numbers each, the higher one first), the name, the file.
// The next sample follows at once; tests/make_scaling_samples.py writes them.
#![tactic(auto)]

use blorb::Refusal;
use sampling::{Packed, Stop, begin, refused, run};
use scaling::Sides;
use std::io;

fn told(rt: &impl Print, answer: Result<Sides, Refusal>) -> io::Result<()> {
    match answer {
        Ok(sides) => print!(rt; "{} by {}", sides.width, sides.height)?,
        Err(r) => refused(rt, r.number(), r.place)?,
    }
    println!(rt; "")
}

fn sample(rt: &impl Print, packed: &mut Packed) -> Result<(), Stop> {
    let [name, file, profile, number] = packed.numbers::<4>()?;
    let window_width = packed.wide()?;
    let window_height = packed.wide()?;
    let width = packed.wide()?;
    let height = packed.wide()?;
    let name = packed.take(name as usize)?;
    let file = packed.take(file as usize)?;
    begin(rt, name)?;
    told(
        rt,
        scaling::scaled(
            file,
            profile,
            window_width,
            window_height,
            number,
            width,
            height,
        ),
    )?;
    Ok(())
}

fn main(rt: HostRuntime) -> io::Result<()> {
    run::<1048576, _>(&rt, |packed| sample(&rt, packed))
}
