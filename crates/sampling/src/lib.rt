// What the programs that run samples share: the loop over their packed input, and what they print.
#![tactic(auto)]

mod packed;

ghost use Rattle.std.specs.Prelude.{◌≡◌, ◌+◌, ◌*◌, ◌%◌, ◌<◌, ◌^◌};
ghost use Rattle.sampling.specs.Samples.{checksum_of, loaded};

use intake::read_full;
pub use packed::{Packed, pair};
use std::io;

// Why no more samples are run.
#[derive(Drop)]
pub enum Stop {
    BadPacking,
    Output(io::Error),
}

impl From<io::Error> for Stop {
    fn from(e: io::Error) -> Stop {
        Stop::Output(e)
    }
}

// Runs `one` on each of the samples that stand packed; bad packing ends it.
pub fn each<F: FnMut(&mut Packed) -> Result<(), Stop>>(
    rt: &impl Print,
    mut packed: Packed,
    mut one: F,
) -> io::Result<()>
    requires { F.IsAlwaysCallable one }
{
    while !packed.0.is_empty() {
        let left = packed.0.len();
        match one(&mut packed) {
            Ok(()) if packed.0.len() < left => {}
            Err(Stop::Output(e)) => return Err(e),
            Ok(()) | Err(Stop::BadPacking) => return println!(rt; "bad packing"),
        }
    }
    Ok(())
}

// Runs `one` on each of the samples on standard input, which has fewer than ROOM bytes.
pub fn run<const ROOM: usize, F: FnMut(&mut Packed) -> Result<(), Stop>>(
    rt: &(impl Input + Print),
    one: F,
) -> io::Result<()>
    requires fits { ROOM < 2 ^ 63 }
    requires callable { F.IsAlwaysCallable one }
{
    let mut buffer = [0; ROOM];
    let n = read_full(&mut rt.reader(), &mut buffer)?;
    if n == ROOM {
        return println!(rt; "too long");
    }
    each(rt, Packed(&buffer[..n]), one)
}

// What is said of a sample begins with its name.
pub fn begin(rt: &impl Print, name: &[u8]) -> io::Result<()> {
    rt.write_all(name)?;
    print!(rt; ": ")
}

pub fn refused(rt: &impl Print, k: u64, place: usize) -> io::Result<()> {
    print!(rt; "refused {k} at {place}")
}

// The bytes in hexadecimal, and the line's end.
pub fn hex(rt: &impl Print, s: &[u8]) -> io::Result<()> {
    for x in s {
        print!(rt; "{x:02x}")?;
    }
    println!(rt; "")
}

// The sum with one number more; the remainder of M keeps it small.
fn summed<const M: u64>(sum: u64, x: u32) -> u64
    requires { (0 < M) × (M < 2 ^ 32) }
    ensures { result ≡ sum % M * 257 + x + 1 }
{
    sum % M * 257 + u64::from(x) + 1
}

// A sum of the bytes that depends on their order.
#[tactic(auto, unfolding(crate::specs::Samples::checksum_of))]
pub fn checksum(s: &[u8]) -> u64
    ensures { result ≡ checksum_of 4294967291 s.now }
{
    s.iter()
        .fold(0, |sum, x| summed::<4294967291>(sum, u32::from(*x)))
}

// The same of numbers, by a smaller remainder.
#[tactic(auto, unfolding(crate::specs::Samples::checksum_of))]
pub fn checksum_of_numbers(t: &[u32]) -> u64
    ensures { result ≡ checksum_of 16777213 t.now }
{
    t.iter().fold(0, |sum, x| summed::<16777213>(sum, *x))
}

// Behind its packed bytes s a buffer has bytes that are not zero and differ from place to place.
pub fn fill(buf: &mut [u8], s: &[u8]) {
    for (i, b) in buf.iter_mut().enumerate() {
        *b = s.get(i).copied().unwrap_or((i % 251 + 1) as u8);
    }
}

// The numbers of `bytes`, four bytes each, at the front of `t`; by index, since a proof doesn't know what is written through `iter_mut`.
pub fn load(bytes: &[u8], t: &mut [u32])
    ensures { t.new ≡ loaded bytes.now t.old }
{
    for k in 0..t.len().min(bytes.len() / 4) {
        t[k] = blorb::be32_at(bytes, 4 * k) as u32;
    }
}
