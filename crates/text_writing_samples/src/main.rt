// Runs the writer of descriptions on the samples that stand packed on standard input, and says what it answers and what the buffer holds.
//
// A packed sample: four numbers of four bytes (the length of its name, how many numbers its list has, the length of its texts
// and that of the buffer), the name, four bytes for each number, the texts. The next sample follows at once;
// tests/make_text_writing_samples.py writes them.
#![tactic(auto)]

use sampling::{Packed, Stop, begin, checksum, fill, hex, load, refused, run};
use std::io;

// A short buffer is shown whole.
fn show(rt: &impl Print, buf: &[u8]) -> io::Result<()> {
    print!(rt; " sum {}", checksum(buf))?;
    if 96 < buf.len() {
        return println!(rt; "");
    }
    print!(rt; " ")?;
    hex(rt, buf)
}

fn write(rt: &impl Print, rows: &[u32], texts: &[u8], buf: &mut [u8]) -> io::Result<()> {
    fill(buf, b"");
    match describing::write(rows, texts, buf) {
        Ok(length) => print!(rt; "written {length}")?,
        Err(r) => refused(rt, r.number(), r.place)?,
    }
    show(rt, buf)
}

fn sample(rt: &impl Print, packed: &mut Packed) -> Result<(), Stop> {
    let [name, count, texts, size] = packed.numbers::<4>()?;
    let name = packed.take(name as usize)?;
    let numbers = packed.take(4 * count as usize)?;
    let texts = packed.take(texts as usize)?;
    begin(rt, name)?;
    let mut rows = [0; 8192];
    let mut buf = [0; 65536];
    let Some(rows) = rows.get_mut(..count as usize) else {
        println!(rt; "too many numbers")?;
        return Ok(());
    };
    let Some(buf) = buf.get_mut(..size as usize) else {
        println!(rt; "too long a buffer")?;
        return Ok(());
    };
    load(numbers, rows);
    write(rt, rows, texts, buf)?;
    Ok(())
}

fn main(rt: HostRuntime) -> io::Result<()> {
    run::<524288, _>(&rt, |packed| sample(&rt, packed))
}
