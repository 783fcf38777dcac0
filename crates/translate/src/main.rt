// Translates sheet.bin of the current folder, prints the answer's line, and on 0 writes book.bin.
#![tactic(auto)]

use std::io;

fn main(rt: HostRuntime) -> io::Result<()> {
    files::translate(&rt, b"sheet.bin", b"book.bin", b"book.bin.new")
}
