// Judges plan.bin by book.bin of the current folder, and prints the answer's line.
#![tactic(auto)]

use std::io;

fn main(rt: HostRuntime) -> io::Result<()> {
    files::judge(&rt, b"book.bin", b"plan.bin")
}
