// Runs the editor on the scenarios that stand packed on standard input, and says what it answers.
//
// A packed scenario: ten numbers of four bytes (the lengths of its name, of the file buffer, of the journal, how many
// bytes of each of the two are packed, L, U, how many bytes its steps have, 1 if both buffers are shown at the end, the
// profile of its calls), the name, the packed bytes of the file buffer and of the journal, the steps. Behind its packed bytes
// a buffer is filled with others, so that every byte that a call shouldn't touch is seen. tests/make_editing_samples.py
// writes them; what a step is stands in `editing_steps`.
#![tactic(auto)]

use editing_steps::Stage;
use sampling::{Packed, Stop, each, fill, hex, run};
use std::io;

// The steps of a scenario, and at the end both buffers if they are to be shown.
fn play(rt: &impl Print, mut stage: Stage, steps: &[u8], shown: bool) -> io::Result<()> {
    print!(rt; ": buffer {} journal {}", stage.file.len(), stage.jrn.len())?;
    stage.say_lengths(rt)?;
    println!(rt; "")?;
    each(rt, Packed(steps), |packed| stage.step(rt, packed))?;
    if shown {
        print!(rt; " buffer ")?;
        hex(rt, stage.file)?;
        print!(rt; " journal ")?;
        hex(rt, stage.jrn)?;
    }
    Ok(())
}

fn scenario(rt: &impl Print, packed: &mut Packed) -> Result<(), Stop> {
    let [
        name,
        lent,
        journal,
        bytes,
        records,
        len,
        used,
        steps,
        shown,
        profile,
    ] = packed.numbers::<10>()?;
    let name = packed.take(name as usize)?;
    let bytes = packed.take(bytes as usize)?;
    let records = packed.take(records as usize)?;
    let steps = packed.take(steps as usize)?;
    let mut file = [0; 65536];
    let mut jrn = [0; 65536];
    let file = file.get_mut(..lent as usize).ok_or(Stop::BadPacking)?;
    let jrn = jrn.get_mut(..journal as usize).ok_or(Stop::BadPacking)?;
    rt.write_all(name)?;
    fill(file, bytes);
    fill(jrn, records);
    let stage = Stage {
        file,
        jrn,
        len: len as usize,
        used: used as usize,
        profile,
    };
    play(rt, stage, steps, shown == 1)?;
    Ok(())
}

fn main(rt: HostRuntime) -> io::Result<()> {
    run::<1048576, _>(&rt, |packed| scenario(&rt, packed))
}
