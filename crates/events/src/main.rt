// Writes plan.bin of the current folder, by book.bin, as events for the floor's screens: prints the answer's line, and on 0 writes
// events.bin.
#![tactic(auto)]

use std::io;

fn main(rt: HostRuntime) -> io::Result<()> {
    let mut b = [0u8; 65540];
    let mut p = [0u8; 65540];
    let m = files::slurp(&rt, b"book.bin", &mut b);
    let n = files::slurp(&rt, b"plan.bin", &mut p);
    let mut room = [0u32; 65536];
    let r = front_written::write_events(&b[..m], &p[..n], &mut room);
    if let Ok(done) = r {
        let list = files::first(&room, done.a as usize);
        if let Err(e) = files::write_words::<262144>(&rt, list, b"events.bin", b"events.bin.new") {
            return files::fail(&rt, b"events.bin", e);
        }
    }
    files::show(&rt, r)
}
