// Runs the specimens of document 01 that speak of files, a line each, and those of jobs; the expected lines are in this crate's stdout. Those
// that 01 stars, the first ten, are proved in claims too.
#![tactic(auto)]

use std::io;

// Judges a sheet, read directly, and a plan by their files' names, and prints the line.
fn judge_sheet(rt: &HostRuntime, sheet: &[u8], plan: &[u8]) -> io::Result<()> {
    files::judge_by(rt, sheet, plan, front::judge_sheet)
}

// Translates a sheet in a room of 105 words, one too few for the specimen that it is for, and prints the line.
fn translate_short(rt: &HostRuntime, sheet: &[u8]) -> io::Result<()> {
    let mut s = [0u8; 65540];
    let m = files::slurp(rt, sheet, &mut s);
    let mut room = [0u32; 105];
    files::show(rt, front::translate(&s[..m], &mut room))
}

fn main(rt: HostRuntime) -> io::Result<()> {
    // P1, P2, the empty plan
    files::judge(&rt, b"book.bin", b"p1.bin")?;
    files::judge(&rt, b"book.bin", b"p2.bin")?;
    files::judge(&rt, b"book.bin", b"empty.bin")?;
    // P2 with the job of 20 at 4 and at 61; with the second decoder token's value 0, 2, and its duration 999,999,991
    files::judge(&rt, b"book.bin", b"job4.bin")?;
    files::judge(&rt, b"book.bin", b"job61.bin")?;
    files::judge(&rt, b"book.bin", b"value0.bin")?;
    files::judge(&rt, b"book.bin", b"value2.bin")?;
    files::judge(&rt, b"book.bin", b"past.bin")?;
    // a rule without trigger on the empty plan: no names, and one name
    files::judge(&rt, b"bare.bin", b"empty.bin")?;
    files::judge(&rt, b"named.bin", b"empty.bin")?;
    // P2 with the job of 20 at 5 and at 60: both pass 9, and the RIP's line then ends elsewhere
    files::judge(&rt, b"book.bin", b"job5.bin")?;
    files::judge(&rt, b"book.bin", b"job60.bin")?;
    // the second decoder token at 999,999,990 passes 11, and its line ends elsewhere
    files::judge(&rt, b"book.bin", b"last.bin")?;
    // E's rule as a sheet: in a room for 16,384 words, and for 105
    files::translate(&rt, b"sheet.bin", b"made.bin", b"made.bin.new")?;
    translate_short(&rt, b"sheet.bin")?;
    // the book that it became and the sheet itself judge alike
    files::judge(&rt, b"made.bin", b"p1.bin")?;
    judge_sheet(&rt, b"sheet.bin", b"p1.bin")?;
    files::judge(&rt, b"made.bin", b"p2.bin")?;
    judge_sheet(&rt, b"sheet.bin", b"p2.bin")?;
    // sets of 8 and 8 relations, of 5 and 13, and eight of 13
    files::translate(&rt, b"eight.bin", b"made8.bin", b"made.bin.new")?;
    files::translate(&rt, b"thirteen.bin", b"made13.bin", b"made.bin.new")?;
    files::translate(&rt, b"all.bin", b"made13.bin", b"made.bin.new")?;
    // tokens with jobs: P1 and P2 in edition 2, N among the jobs; P2's two words a token there; edition 3
    files::judge(&rt, b"book.bin", b"p1jobs.bin")?;
    files::judge(&rt, b"book.bin", b"p2jobs.bin")?;
    files::judge(&rt, b"book.bin", b"two_words.bin")?;
    files::judge(&rt, b"book.bin", b"edition3.bin")
}
