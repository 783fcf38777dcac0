// Lent words: the word at a place, a run of words put at a place, a file's bytes as words.
#![tactic(auto)]

ghost use Rattle.std.specs.Prelude.{◌≡◌, ◌+◌, ◌*◌, ◌/◌, ◌^◌, ◌≤◌, ◌<◌, ◌++◌, length, take, drop};
ghost use Rattle.words.specs.Words.{word, in_set};
ghost use Rattle.words.specs.Write.{Wrote, Has};
ghost use Rattle.words.specs.Bytes.{file_words, four_bytes, byte_word, words_of, bytes_of_word, bytes_of, Loaded};

// The word at a place, 0 past the end.
pub fn word_at(s: &[u32], at: usize) -> u32
    ensures { result ≡ word s.now at }
{
    if at < s.len() { s[at] } else { 0 }
}

// The same, as a number to count and index with.
pub fn number_at(s: &[u32], at: usize) -> usize
    ensures { (result ≡ word s.now at) × (result < 2 ^ 32) }
{
    word_at(s, at) as usize
}

// A record among lent words: where its first word stands, so low that no place in it wraps. What lies past the end is 0.
#[derive(Clone, Copy)]
pub struct Record<'a> {
    pub words: &'a [u32],
    pub place: usize,
    pub ghost low: { place < 2 ^ 60 },
}

impl<'a> Record<'a> {
    // Word k of the record.
    pub fn word(self, k: usize) -> u32
        requires { k < 8 }
        ensures { result ≡ word self.entry.words.now (self.entry.place + k) }
    {
        word_at(self.words, self.place + k)
    }
}

// Puts a run of words at a place, and answers the place behind them.
pub fn put(to: &mut [u32], place: usize, run: &[u32]) -> usize
    requires { Has to.old place run.now }
    ensures { Wrote to.old to.new place result run.now }
{
    let behind = place + run.len();
    to[place..behind].copy_from_slice(run);
    behind
}

// Copies n words of `from`, those from `at` on, into `to` from `place` on, and answers the place behind them.
pub fn put_words(from: &[u32], at: usize, n: usize, to: &mut [u32], place: usize) -> usize
    requires { (at + n ≤ length from.now) × (place + n ≤ length to.old) }
    ensures { Wrote to.old to.new place result (take n (drop at from.now)) }
{
    put(to, place, &from[at..at + n])
}

// Whether bit k of the set s is there.
pub fn in_set(s: u32, k: u32) -> bool
    ensures { result ≡ in_set s k }
{
    k < 32 && (s >> k) % 2 == 1
}

// The word of four bytes, least first.
pub fn four_bytes(a: u8, b: u8, c: u8, d: u8) -> u32
    ensures { result ≡ four_bytes a b c d }
{
    u32::from_le_bytes([a, b, c, d])
}

// Word i of the bytes of s.
fn byte_word(s: &[u8], i: usize) -> u32
    requires { i < length s.now / 4 }
    ensures { result ≡ byte_word s.now i }
{
    let at = i * 4;
    four_bytes(s[at], s[at + 1], s[at + 2], s[at + 3])
}

// Puts the words of s at the start of out, and answers how many they are.
fn decode(s: &[u8], out: &mut [u32]) -> usize
    requires { length s.now / 4 ≤ length out.old }
    ensures value { result ≡ length s.now / 4 }
    ensures out_after { out.new ≡ words_of s.now ++ drop (length s.now / 4) out.old }
{
    let n = s.len() / 4;
    for i in 0..n {
        out[i] = byte_word(s, i);
    }
    n
}

// The words of a file's bytes, at the start of out, and how many they are: none where the bytes are over 65,536 or no
// multiple of 4. Behind them out stays as it was.
pub fn load(s: &[u8], out: &mut [u32; 16384]) -> usize
    ensures { Loaded s.now result out.old out.new }
{
    if s.len() > 65536 {
        return 0;
    }
    if s.len() % 4 != 0 {
        return 0;
    }
    decode(s, out)
}

// The words of a file's bytes, in a lent room: none where the bytes are over 65,536 or no multiple of 4.
pub fn loaded<'a>(s: &[u8], room: &'a mut [u32; 16384]) -> &'a [u32]
    ensures { result.now ≡ file_words s.now }
{
    let n = load(s, room);
    &room[..n]
}

// Puts the four bytes of a word, least first, at a place, and answers the place behind them.
fn put_bytes(w: u32, out: &mut [u8], at: usize) -> usize
    requires { at + 4 ≤ length out.old }
    ensures { Wrote out.old out.new at result (bytes_of_word w) }
{
    let behind = at + 4;
    out[at..behind].copy_from_slice(&w.to_le_bytes());
    behind
}

// Puts the bytes of the words of s at the start of out, which the caller has shown to be long enough, and answers how many they are.
pub fn store(s: &[u32], out: &mut [u8]) -> usize
    requires { 4 * length s.now ≤ length out.old }
    ensures { Wrote out.old out.new 0 result (bytes_of s.now) }
{
    let mut at = 0;
    for w in s {
        at = put_bytes(*w, out, at);
    }
    at
}
