// Prints the listing of the Blorb file on standard input.
#![tactic(auto)]

use std::io;

fn main(rt: HostRuntime) -> io::Result<()> {
    listing_io::list_stdin(&rt)
}
