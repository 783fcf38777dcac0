// Marks: for each name of an alternative a token such that none in front of it serves in any choice; the marks are raised until no ask tells
// of one that it is too early. Kinds and the edition stay numbers, as in `choice`: `whose` and `ask_at` are said of every one.
#![tactic(auto)]

ghost use Rattle.std.specs.Prelude.{◌≡◌, ◌+◌, ◌*◌, ◌<◌, ◌≤◌, ◌^◌, length};
ghost use Rattle.words.specs.Words.{word};
ghost use Rattle.lines.specs.Ends.{plan_end};
ghost use Rattle.lines.specs.Lines.{token_width, line_of};
ghost use Rattle.choice.specs.Met.{token_time};
ghost use Rattle.choice.specs.Asked.{asks_hold};
ghost use Rattle.marks.specs.Marked.{Sought, Advanced, next_of, Told, whose, within, ask_at, needs_right, needs_left, all_need, Marked, Started, Raised};

use choice::{Alternative, Tokens, put, token_time};
use clock::Time;
use lines::Token;
use words::{Record, word_at};

// The marks of an alternative: the trigger token and the marked tokens as a choice, and at each mark the tokens left from it on and its place.
#[derive(Clone, Copy)]
pub struct Lead {
    pub times: [u64; 16],
    pub rests: [u64; 16],
}

// A token of a line: how many are left from it on, where its words are, and its times.
#[derive(Clone, Copy)]
pub struct Seen {
    pub left: u64,
    pub place: usize,
    pub start: u64,
    pub end: u64,
}

// The first two words of a token of which the plan has no second one. A plan that passed has no such token, so this stays out of the loop of
// `seek`, which gets shorter by it.
#[cold]
#[inline(never)]
fn head_cut(p: &[u32], place: usize) -> (u32, u32)
    requires { (place < 2 ^ 60) × (length p.now ≤ place + 1) }
    ensures value { result.0 ≡ word p.now place }
    ensures duration { result.1 ≡ word p.now (place + 1) }
{
    (word_at(p, place), 0)
}

// The first two words of the token at a place, its value and its duration. Where the second is, the first is too: one test does for both.
fn head_at(p: &[u32], place: usize) -> (u32, u32)
    requires { place < 2 ^ 60 }
    ensures value { result.0 ≡ word p.now place }
    ensures duration { result.1 ≡ word p.now (place + 1) }
{
    if place + 1 < p.len() {
        (p[place], p[place + 1])
    } else {
        head_cut(p, place)
    }
}

// The first of some tokens that has the value that is asked for, if one has.
fn seek(p: &[u32], w: Tokens) -> Option<Seen>
    requires { (w.place + 3 * w.count < 2 ^ 60) × (w.start + 4294967296 * w.count < 2 ^ 64) × (w.width ≡ token_width p.now) }
    ensures { Sought p.now w result }
{
    let mut place = w.place;
    let mut start = w.start;
    for i in 0..w.count {
        let (value, duration) = head_at(p, place);
        let end = start + duration as u64;
        if value == w.value {
            return Some(Seen {
                left: w.count - i,
                place,
                start,
                end,
            });
        }
        start = end;
        place += w.width;
    }
    None
}

// Marks for name number k the first of some tokens that has its value, if there is one. No mark is moved for a job, so none is put.
fn advance(p: &[u32], m: &mut Lead, k: usize, w: Tokens) -> bool
    requires { (k < 2 ^ 60) × (w.place + 3 * w.count < 2 ^ 60) × (w.start + 4294967296 * w.count < 2 ^ 64) × (w.width ≡ token_width p.now) }
    ensures { Advanced p.now k w m.old.times m.old.rests m.new.times m.new.rests result }
{
    let Some(s) = seek(p, w) else {
        return false;
    };
    put(&mut m.times, k, s.start, s.end, 0);
    put(&mut m.rests, k, s.left, s.place as u64, 0);
    true
}

// Marks the first token of its value for each name of an alternative, in a plan that ends at `last`; none where a name has no such token.
// It stays a call: with its loop beside it, that of `asks_early` reads where book and plan are from the stack for each ask.
#[inline(never)]
pub fn start_marks(b: &[u32], p: &[u32], last: u64, t: Token, a: Alternative) -> Option<Lead>
    requires { (a.names ≤ 4) × (a.name < 2 ^ 40) × (last ≡ plan_end (line_of p.now)) }
    ensures { Started b.now p.now a t result }
{
    let mut m = Lead {
        times: choice::triggered(last, t),
        rests: [0; 16],
    };
    for k in 0..a.names {
        let w = choice::tokens_of(b, p, a.name + 2 * k);
        if !advance(p, &mut m, k + 1, w) {
            return None;
        }
    }
    Some(m)
}

// Moves the mark of name number k to the next token of its value, if there is one.
fn move_mark(b: &[u32], p: &[u32], a: Alternative, k: u32, m: &mut Lead) -> bool
    requires { (1 ≤ k) × (a.name < 2 ^ 40) × (token_time m.old.rests 0 k ≡ 0 → ⊥) × ((next_of b.now p.now a k m.old.times m.old.rests).place + 3 * (next_of b.now p.now a k m.old.times m.old.rests).count < 2 ^ 60) × ((next_of b.now p.now a k m.old.times m.old.rests).start + 4294967296 * (next_of b.now p.now a k m.old.times m.old.rests).count < 2 ^ 64) }
    ensures { Advanced p.now k (next_of b.now p.now a k m.old.times m.old.rests) m.old.times m.old.rests m.new.times m.new.rests result }
{
    let value = word_at(b, a.name + 2 * (k as usize - 1) + 1);
    let count = token_time(&m.rests, 0, k) - 1;
    let width = lines::token_width(p);
    let place = token_time(&m.rests, 1, k) as usize + width;
    let start = token_time(&m.times, 1, k);
    advance(
        p,
        m,
        k as usize,
        Tokens {
            value,
            job: None,
            width,
            count,
            place,
            start,
        },
    )
}

// What is told is the number of a name that is too early: in every choice it has a later token than the marked one. This number is the
// trigger's, and that of what no mark moves: a time point, the plan's end.
const TRIGGER: u32 = 0;

// The number of the name that a term is of, if it is of one of n names.
fn whose(kind: u32, x: u32, n: usize) -> u32
    ensures { result ≡ whose kind x n }
{
    if (kind < 2) & (x as usize <= n) { x } else { 0 }
}

// What two terms at the marks tell, which have to be within bounds: below lower the right one is too early, above upper the left one.
fn bounds_early(
    c: &[u64; 16],
    n: usize,
    i: u32,
    x: u32,
    j: u32,
    y: u32,
    lower: u32,
    upper: u32,
) -> Option<u32>
    ensures { Told c.now n result (within i x j y lower upper) }
{
    if (i > 3) | (j > 3) {
        return None;
    }
    let left = choice::term(c, i, x);
    let right = choice::term(c, j, y);
    if left.in_bounds(right, lower, upper) {
        return None;
    }
    if left.in_bounds(right, lower, Time::NO_LIMIT) {
        return Some(whose(i, x, n));
    }
    Some(whose(j, y, n))
}

// Whether each relation of a set is one that needs it. Stopping at the first that doesn't is slower: it makes fourteen branches.
fn all_needed(set: u32, needs: [bool; 14]) -> bool
    ensures { result ≡ all_need set 0 needs }
{
    let mut all = true;
    for (k, need) in needs.iter().enumerate() {
        all &= !words::in_set(set, k as u32) | *need;
    }
    all
}

// Whether each relation of a set needs a later right stretch than s2..e2 beside s..e.
fn right_needed(set: u32, s: u64, e: u64, s2: u64, e2: u64) -> bool
    ensures { result ≡ all_need set 0 (needs_right s e s2 e2) }
{
    all_needed(
        set,
        [
            s2 <= e,
            s2 < e,
            (s2 <= s) | (e2 <= e),
            (s2 <= s) | (e2 < e),
            s2 <= s,
            (s2 < s) | (e2 <= e),
            (s2 < s) | (e2 < e),
            s2 < s,
            e2 <= e,
            e2 < e,
            e2 <= s,
            e2 < s,
            false,
            false,
        ],
    )
}

// Whether each needs a later left one.
fn left_needed(set: u32, s: u64, e: u64, s2: u64, e2: u64) -> bool
    ensures { result ≡ all_need set 0 (needs_left s e s2 e2) }
{
    all_needed(
        set,
        [
            false,
            e < s2,
            e <= s2,
            e < e2,
            e <= e2,
            s < s2,
            (s < s2) | (e < e2),
            (s < s2) | (e <= e2),
            s <= s2,
            (s <= s2) | (e < e2),
            (s <= s2) | (e <= e2),
            s < e2,
            s <= e2,
            false,
        ],
    )
}

// What a constraint tells: all relations of its set together.
fn set_early(constraint: Record, c: &[u64; 16], n: usize) -> Option<u32>
    ensures { Told c.now n result (ask_at 2 constraint.entry.words.now constraint.entry.place) }
{
    if choice::constraint_holds(constraint, c) {
        return None;
    }
    let l = constraint.word(0);
    let r = constraint.word(1);
    let set = constraint.word(2);
    let s = token_time(c, 0, l);
    let e = token_time(c, 1, l);
    let s2 = token_time(c, 0, r);
    let e2 = token_time(c, 1, r);
    if right_needed(set, s, e, s2, e2) {
        return Some(whose(0, r, n));
    }
    if left_needed(set, s, e, s2, e2) {
        return Some(whose(0, l, n));
    }
    None
}

// What an ask tells.
fn ask_early(e: usize, ask: Record, c: &[u64; 16], n: usize) -> Option<u32>
    ensures { Told c.now n result (ask_at e ask.entry.words.now ask.entry.place) }
{
    if e == 2 {
        return set_early(ask, c, n);
    }
    let i = ask.word(0);
    let x = ask.word(1);
    let j = ask.word(2);
    let y = ask.word(3);
    let lower = ask.word(4);
    let upper = ask.word(5);
    bounds_early(c, n, i, x, j, y, lower, upper)
}

// What the first ask of an alternative that tells a name tells.
fn asks_early(b: &[u32], a: Alternative, c: &[u64; 16]) -> Option<u32>
    requires { a.ask + 8 * a.asks < 2 ^ 60 }
    ensures { Told c.now a.names result (asks_hold b.now a) }
{
    let width = choice::fifth_width(a.edition);
    for i in 0..a.asks {
        let ask = Record {
            words: b,
            place: a.ask + i * width,
        };
        let told = ask_early(a.edition, ask, c, a.names);
        if told.is_some() {
            return told;
        }
    }
    None
}

// What raising found: marks from which the choices are to be searched; marks, and no choice for this trigger token; or none for a later one either.
#[derive(Clone, Copy)]
pub enum Found {
    Open(Lead),
    NoneNow(Lead),
    NoneEver,
}

// Raises the marks until no ask tells of a name that it is too early.
pub fn raise(b: &[u32], p: &[u32], t: Token, a: Alternative, started: Lead) -> Found
    requires { (a.ask + 8 * a.asks < 2 ^ 60) × (a.name < 2 ^ 40) × Marked b.now p.now a t a.names started.times started.rests }
    ensures { Raised b.now p.now a t result }
{
    let mut m = started;
    // No count ends it: a mark is moved at most as often as there are tokens behind it.
    loop {
        let Some(k) = asks_early(b, a, &m.times) else {
            return Found::Open(m);
        };
        if k == TRIGGER {
            return Found::NoneNow(m);
        }
        if !move_mark(b, p, a, k, &mut m) {
            return Found::NoneEver;
        }
    }
}
