// Files for the programs: the bytes of a file, the line of numbers, and words written out. A file's name is a run of bytes: a `&str`
// would ask of callers that it is UTF-8.
#![tactic(auto)]

ghost use Rattle.std.specs.Prelude.{◌≡◌, ◌^◌, ◌<◌, ◌≤◌, length, take};

use answers::{Answer, Done, Refusal};
use std::fs::File;
use std::io::{Read, Write};
use std::{fs, io};

// The bytes of a file, at the start of buf, and how many they are: none where it can't be opened, or where its name is no UTF-8.
// The four bytes beyond 65,536 show that a file is too long. The memory is the caller's and fixed, with the count beside it: no file is
// read onto a heap.
pub fn slurp(rt: &HostRuntime, path: &[u8], buf: &mut [u8; 65540]) -> usize
    ensures within { result ≤ length buf.new }
    ensures counted { result ≡ length (take result buf.new) }
{
    let Ok(name) = str::from_utf8(path) else {
        return 0;
    };
    let Ok(mut file) = File::open(rt, name) else {
        return 0;
    };
    fill(&mut file, buf)
}

// What a file still has, at the start of buf, as far as it fits and can be read, and how many bytes that are.
fn fill(file: &mut File, buf: &mut [u8; 65540]) -> usize
    ensures within { result ≤ length buf.new }
    ensures counted { result ≡ length (take result buf.new) }
{
    let mut n = 0;
    // no count is known before: until the file ends or buf is full
    for _ in 0..u64::MAX {
        if n == buf.len() {
            break;
        }
        match file.read(&mut buf[n..]) {
            Ok(0) => break,
            Ok(more) => n += more,
            Err(e) if e.kind() == io::ErrorKind::Interrupted => {}
            Err(_) => break,
        }
    }
    n
}

// Prints an answer's four numbers on a line.
pub fn show(rt: &HostRuntime, r: Answer) -> io::Result<()> {
    println!(rt; "{}", answers::numbers_of(r))
}

// Judges two files by their names, as a judge of their bytes says, and prints the line.
pub fn judge_by<J: Fn(&[u8], &[u8]) -> Answer>(
    rt: &HostRuntime,
    first: &[u8],
    second: &[u8],
    judge: J,
) -> io::Result<()>
    requires { J.IsAlwaysCallable judge }
{
    let mut a = [0u8; 65540];
    let mut b = [0u8; 65540];
    let m = slurp(rt, first, &mut a);
    let n = slurp(rt, second, &mut b);
    show(rt, judge(&a[..m], &b[..n]))
}

// Judges a book and a plan by their files' names, and prints the line.
pub fn judge(rt: &HostRuntime, book: &[u8], plan: &[u8]) -> io::Result<()> {
    judge_by(rt, book, plan, front::judge)
}

// The first n of s, or all where there are fewer.
pub fn first<T>(s: &[T], n: usize) -> &[T]
    ensures { result.now ≡ take n s.now }
{
    s.get(..n).unwrap_or(s)
}

// Puts bytes in a new file of that name, in place of what stood there; where they can't be written, the file goes.
fn put_file(rt: &HostRuntime, name: &str, bytes: &[u8]) -> io::Result<()> {
    let mut file = File::create(rt, name)?;
    let written = file.write_all(bytes);
    if written.is_err() {
        let _ = fs::remove_file(rt, name);
    }
    written
}

// Writes bytes to a new file, which then takes the place of the old one.
pub fn replace(rt: &HostRuntime, bytes: &[u8], path: &[u8], fresh: &[u8]) -> io::Result<()> {
    let (Ok(old), Ok(new)) = (str::from_utf8(path), str::from_utf8(fresh)) else {
        return Err(io::Error::from(io::ErrorKind::InvalidInput));
    };
    put_file(rt, new, bytes)?;
    fs::rename(rt, new, old)
}

// Writes words as bytes, of which there may be at most BYTES, to a new file, which then takes the place of the old one.
pub fn write_words<const BYTES: usize>(
    rt: &HostRuntime,
    words: &[u32],
    path: &[u8],
    fresh: &[u8],
) -> io::Result<()>
    requires { BYTES < 2 ^ 63 }
{
    if words.len() > BYTES / 4 {
        return Err(io::Error::from(io::ErrorKind::InvalidInput));
    }
    let mut bytes = [0u8; BYTES];
    let n = words::store(words, &mut bytes);
    replace(rt, first(&bytes, n), path, fresh)
}

// A reason without its number.
fn reason(said: &str) -> &str {
    said.split_once(" (os error ")
        .map_or(said, |(text, _)| text)
}

// Writes a line to standard error: what failed, a colon and the reason.
pub fn fail(rt: &HostRuntime, what: &[u8], e: io::Error) -> io::Result<()> {
    let said = format!(in rt.alloc(); "{e}")?;
    eprintln!(rt;
        "{}: {}",
        str::from_utf8(what).unwrap_or(""),
        reason(said.as_str())
    )
}

// Translates a sheet by its file's name and prints the line; on 0 the book is written to a file. On a refusal nothing is.
pub fn translate(rt: &HostRuntime, sheet: &[u8], book: &[u8], fresh: &[u8]) -> io::Result<()> {
    let mut s = [0u8; 65540];
    let m = slurp(rt, sheet, &mut s);
    let mut room = [0u32; 16384];
    let r = front::translate(&s[..m], &mut room);
    if let Ok(done) = r {
        if let Err(e) = write_words::<65536>(rt, first(&room, done.a as usize), book, fresh) {
            return fail(rt, book, e);
        }
    }
    show(rt, r)
}

// Prints a line for each alternative of a book that no day could meet, its rule and its number over all rules; of a book that is refused,
// the answer's line. There are at most 1,024 alternatives.
fn list_hopeless(rt: &HostRuntime, book: &[u32]) -> io::Result<()> {
    let mut times = [0u64; 11];
    for alternative in 0..1024 {
        match earliest::earliest(book, alternative, &mut times) {
            Ok(Done { a: 0, .. }) => {
                let rule = earliest::rule_of(book, alternative as usize);
                println!(rt; "rule {rule} alternative {alternative}")?;
            }
            Ok(_) => {}
            Err(Refusal::NoSuchAlternative) => return Ok(()),
            refused => return show(rt, refused),
        }
    }
    Ok(())
}

// Prints a line for each alternative of a book, by its file's name, that no day could meet.
pub fn forecast(rt: &HostRuntime, book: &[u8]) -> io::Result<()> {
    let mut bytes = [0u8; 65540];
    let n = slurp(rt, book, &mut bytes);
    let mut b = [0u32; 16384];
    list_hopeless(rt, words::loaded(&bytes[..n], &mut b))
}
