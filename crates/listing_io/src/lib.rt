// The lister's reading and writing: standard input in, its listing out.
#![tactic(auto)]

ghost use Rattle.std.specs.Prelude.{◌≡◌, ◌≤◌, ◌++◌, length, drop};
ghost use Rattle.listing.specs.Listing.{input_listing};

use intake::read_full;
use std::io;
use std::io::Read;

// The whole listing: 196,672 bytes are room for one of 4,096 entries.
fn list_whole(file: &[u8], longer: bool, out: &mut [u8]) -> usize
    requires { 196672 ≤ length out.old }
    ensures { (result ≡ length (input_listing file.now longer)) × (out.new ≡ input_listing file.now longer ++ drop result
        out.old) × (result ≤ length out.new) }
{
    listing::list_input(file, longer, out).unwrap()
}

// Whether the input has more, once n bytes were read into 65,536.
fn more_follows(reader: &mut impl Read, n: usize) -> io::Result<bool> {
    if n < 65536 {
        return Ok(false);
    }
    let mut next = [0u8; 1];
    let more = read_full(reader, &mut next)?;
    Ok(0 < more)
}

// Prints the listing of what stands on standard input: 65,536 bytes are read, and then one more shows longer input.
// No contract can say what is read and written; list_whole's says what the bytes are.
pub fn list_stdin(rt: &(impl Input + Print)) -> io::Result<()> {
    let mut file = [0u8; 65536];
    let mut out = [0u8; 196672];
    let mut reader = rt.reader();
    let n = read_full(&mut reader, &mut file)?;
    let longer = more_follows(&mut reader, n)?;
    let to = list_whole(&file[..n], longer, &mut out);
    rt.write_all(&out[..to])
}
