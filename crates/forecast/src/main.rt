// Prints a line for each alternative of book.bin of the current folder that no day could meet: its rule and its number.
#![tactic(auto)]

use std::io;

fn main(rt: HostRuntime) -> io::Result<()> {
    files::forecast(&rt, b"book.bin")
}
