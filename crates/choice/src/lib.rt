// A choice: the plan's end, and start, end and job of the trigger token and of the tokens chosen for an alternative's names; the times of terms
// in it, and whether what the alternative asks holds. The kind of a term and the edition stay numbers: they are words of a book that may be
// anything, and `time_of` and `ask_holds` are said of every one.
#![tactic(auto)]

ghost use Rattle.std.specs.Prelude.{◌≡◌, ◌&&◌, ◌+◌, ◌*◌, ◌<◌, ◌^◌, leb, get_or, set};
ghost use Rattle.clock.specs.Clock.{at};
ghost use Rattle.book.specs.Rules.{atom_at, constraint_at};
ghost use Rattle.choice.specs.Met.{nobody, time_place, job_place, triggered, put, token_time, token_job, time_of, bounds_hold, atom_holds, constraint_holds};
ghost use Rattle.choice.specs.Asked.{ask_holds, term_placed, terms_placed, ask_placed, ask_passes, hold_so_far, tokens_of, TiedAt, Tied, alternative_of};

use clock::Time;
pub use layout::fifth_width;
use lines::Token;
use words::{Record, number_at, word_at};

// What stands for a token that isn't there.
pub fn nobody() -> Token
    ensures { result ≡ nobody }
{
    Token {
        value: 0,
        start: Time { tick: 0 },
        end: Time { tick: 1 },
        job: 0,
    }
}

// The choice of the trigger alone, in a plan that ends at `last`.
pub fn triggered(last: u64, t: Token) -> [u64; 16]
    ensures { result ≡ triggered last t }
{
    let start = t.start;
    let end = t.end;
    [
        last,
        start.tick,
        end.tick,
        t.job as u64,
        0,
        1,
        0,
        0,
        1,
        0,
        0,
        1,
        0,
        0,
        1,
        0,
    ]
}

// Where a choice has the end of the plan.
const END_PLACE: usize = 0;

// Where it has the start (kind 0) or the end (kind 1) of name number k.
fn time_place(kind: usize, k: usize) -> usize
    requires { (kind < 2 ^ 32) × (k < 2 ^ 60) }
    ensures { result ≡ time_place kind k }
{
    1 + 3 * k + kind
}

// And its job.
fn job_place(k: usize) -> usize
    requires { k < 2 ^ 60 }
    ensures { result ≡ job_place k }
{
    1 + 3 * k + 2
}

// Stores a time at a place, if there is that place. (A slice's `get_mut` tells a proof nothing of what is written.)
pub fn set_time(c: &mut [u64], i: usize, t: u64)
    ensures { c.new ≡ set c.old i t }
{
    if i < c.len() {
        c[i] = t;
    }
}

// The time at a place, and `none` where there is no such place.
pub fn time_at(c: &[u64], i: usize, none: u64) -> u64
    ensures { result ≡ get_or c.now i none }
{
    c.get(i).copied().unwrap_or(none)
}

// Puts start, end and job of a token for name number k into the choice, which has no place for a name past the fourth.
pub fn put(c: &mut [u64; 16], k: usize, start: u64, end: u64, job: u64)
    requires { k < 2 ^ 60 }
    ensures { c.new ≡ put c.old k start end job }
{
    set_time(c, time_place(0, k), start);
    set_time(c, time_place(1, k), end);
    set_time(c, job_place(k), job);
}

// Start (kind 0) or end (kind 1) of the token that an argument names.
pub fn token_time(c: &[u64; 16], kind: u32, k: u32) -> u64
    ensures { result ≡ token_time c.now kind k }
{
    time_at(c, time_place(kind as usize, k as usize), kind as u64)
}

// The job of the token that an argument names.
pub fn token_job(c: &[u64; 16], k: u32) -> u64
    ensures { result ≡ token_job c.now k }
{
    time_at(c, job_place(k as usize), 0)
}

// The time of a term: 0 start of, 1 end of, 2 time point, 3 end of the plan.
pub fn term(c: &[u64; 16], kind: u32, k: u32) -> Time
    ensures { result ≡ at (time_of c.now kind k) }
{
    let tick = match kind {
        2 => k as u64,
        3 => time_at(c, END_PLACE, 0),
        _ => token_time(c, kind, k),
    };
    Time { tick }
}

// Whether the times of an atom's two terms are within its bounds.
fn bounds_hold(atom: Record, c: &[u64; 16]) -> bool
    ensures { result ≡ bounds_hold c.now (atom_at atom.entry.words.now atom.entry.place) }
{
    let left = term(c, atom.word(0), atom.word(1));
    let right = term(c, atom.word(2), atom.word(3));
    left.in_bounds(right, atom.word(4), atom.word(5))
}

// Whether an atom holds: two jobs are equal, or two times within bounds.
fn atom_holds(atom: Record, c: &[u64; 16]) -> bool
    ensures { result ≡ atom_holds c.now (atom_at atom.entry.words.now atom.entry.place) }
{
    if atom.word(0) == 4 {
        let left = token_job(c, atom.word(1));
        let right = token_job(c, atom.word(3));
        return left == right;
    }
    bounds_hold(atom, c)
}

// Whether a constraint holds: its two tokens stand in a relation of its set. Taken into its callers, since a call for each constraint of a sheet
// showed in the direct judge's time.
#[inline(always)]
pub fn constraint_holds(constraint: Record, c: &[u64; 16]) -> bool
    ensures { result ≡ constraint_holds c.now (constraint_at constraint.entry.words.now constraint.entry.place) }
{
    let l = constraint.word(0);
    let r = constraint.word(1);
    let k = allen::relation(
        token_time(c, 0, l),
        token_time(c, 1, l),
        token_time(c, 0, r),
        token_time(c, 1, r),
    );
    words::in_set(constraint.word(2), k)
}

// The leaf in which the judge of a book and the direct judge of a sheet differ.
fn ask_holds(e: usize, ask: Record, c: &[u64; 16]) -> bool
    ensures { result ≡ ask_holds e ask.entry.words.now c.now ask.entry.place }
{
    if e == 2 {
        constraint_holds(ask, c)
    } else {
        atom_holds(ask, c)
    }
}

// What an alternative names and asks: the edition, where its names and its asks are, and how many.
#[derive(Clone, Copy)]
pub struct Alternative {
    pub edition: usize,
    pub name: usize,
    pub names: usize,
    pub ask: usize,
    pub asks: usize,
}

// The alternative whose four words stand at a place: where its names and its asks are, and how many.
pub fn alternative_at(e: usize, b: &[u32], place: usize) -> Alternative
    requires { place < 2 ^ 60 }
    ensures { (result ≡ alternative_of e b.now place) × (result.name < 2 ^ 40) × (result.names < 2 ^ 32) × (result.ask < 2 ^ 40) × (result.asks < 2 ^ 32) }
{
    let name = number_at(b, 11) + 2 * number_at(b, place);
    let names = number_at(b, place + 1);
    let ask = number_at(b, 13) + fifth_width(e) * number_at(b, place + 2);
    let asks = number_at(b, place + 3);
    Alternative {
        edition: e,
        name,
        names,
        ask,
        asks,
    }
}

// Tokens of a line, for a name: the value that it asks for, and the job if it is tied to one; the words of a token, how many tokens, where
// they are, and when the first starts.
#[derive(Clone, Copy)]
pub struct Tokens {
    pub value: u32,
    pub job: Option<u64>,
    pub width: usize,
    pub count: u64,
    pub place: usize,
    pub start: u64,
}

// All tokens of the line that the name at a place names.
pub fn tokens_of(b: &[u32], p: &[u32], name: usize) -> Tokens
    requires { name < 2 ^ 60 }
    ensures { (result ≡ tokens_of b.now p.now name) × (result.place < 2 ^ 40) × (result.count < 2 ^ 32) }
{
    let line = number_at(b, name);
    let value = word_at(b, name + 1);
    let count = word_at(p, 4 + 2 * line);
    let width = lines::token_width(p);
    let place = lines::line_place(p, line);
    Tokens {
        value,
        job: None,
        width,
        count: count as u64,
        place,
        start: 0,
    }
}

// Whether a term's time is known once j names have their tokens.
fn term_placed(kind: u32, x: u32, j: usize) -> bool
    ensures { result ≡ term_placed kind x j }
{
    ((kind == 2) | (kind == 3)) | ((kind < 2) & (x as usize <= j))
}

// Whether the times of an atom's two terms are known.
fn terms_placed(atom: Record, j: usize) -> bool
    ensures { result ≡ terms_placed atom.entry.words.now atom.entry.place j }
{
    term_placed(atom.word(0), atom.word(1), j) & term_placed(atom.word(2), atom.word(3), j)
}

// Whether two arguments name tokens that are placed.
fn tokens_placed(x: u32, y: u32, j: usize) -> bool
    ensures { result ≡ (leb x j && leb y j) }
{
    (x as usize <= j) & (y as usize <= j)
}

// Whether an ask can be tested once j names have their tokens.
fn ask_placed(e: usize, ask: Record, j: usize) -> bool
    ensures { result ≡ ask_placed e ask.entry.words.now ask.entry.place j }
{
    if e == 2 {
        return tokens_placed(ask.word(0), ask.word(1), j);
    }
    if ask.word(0) == 4 {
        return tokens_placed(ask.word(1), ask.word(3), j);
    }
    terms_placed(ask, j)
}

// Whether an ask holds, or can't be tested yet; with all names placed each is tested.
fn ask_passes(ask: Record, a: Alternative, c: &[u64; 16], j: usize) -> bool
    ensures { result ≡ ask_passes ask.entry.words.now a c.now j ask.entry.place }
{
    let untested = j < a.names && !ask_placed(a.edition, ask, j);
    untested || ask_holds(a.edition, ask, c)
}

// Whether all that an alternative asks and that can be tested with j names placed holds.
pub fn hold_so_far(b: &[u32], a: Alternative, c: &[u64; 16], j: usize) -> bool
    requires { a.ask + 8 * a.asks < 2 ^ 60 }
    ensures { result ≡ hold_so_far b.now a c.now j a.asks a.ask }
{
    let width = fifth_width(a.edition);
    for i in 0..a.asks {
        let ask = Record {
            words: b,
            place: a.ask + i * width,
        };
        if !ask_passes(ask, a, c, j) {
            return false;
        }
    }
    true
}

// The job that an ask in a book ties name number k to, if it is an atom of jobs of that name and of the trigger or a name before it.
fn tie_at(ask: Record, c: &[u64; 16], k: u32) -> Option<u64>
    ensures { TiedAt ask.entry.words.now c.now k ask.entry.place result }
{
    if ask.word(0) == 4 {
        let x = ask.word(1);
        let y = ask.word(3);
        if (x == k) & (y < k) {
            return Some(token_job(c, y));
        }
        if (y == k) & (x < k) {
            return Some(token_job(c, x));
        }
    }
    None
}

// The job that name number k is asked for, once the names before it are placed: by the first atom of jobs that ties it.
pub fn job_asked(b: &[u32], a: Alternative, c: &[u64; 16], k: u32) -> Option<u64>
    requires { a.ask + 8 * a.asks < 2 ^ 60 }
    ensures { Tied b.now a c.now k result }
{
    if (a.edition == 2) | (k > 4) {
        return None;
    }
    for i in 0..a.asks {
        let ask = Record {
            words: b,
            place: a.ask + i * 6,
        };
        let job = tie_at(ask, c, k);
        if job.is_some() {
            return job;
        }
    }
    None
}
