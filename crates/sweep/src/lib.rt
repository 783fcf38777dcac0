// All starts and ends of all timelines in time order: where each line stands, how long until the next token ends, and where the lines stand then.
#![tactic(auto)]

ghost use Rattle.std.specs.Prelude.{◌≡◌, ℕ, ◌+◌, ◌*◌, ◌<◌, ◌≤◌, ◌^◌, length};
ghost use Rattle.words.specs.Words.{word};
ghost use Rattle.sweep.specs.Stands.{first_stand, later, sooner, line_at, soonest, Begun, Later};
ghost use Rattle.sweep.specs.Sweeps.{Sweeps, Moments};

use words::{number_at, word_at};

// Where a line stands: its running token's place in the plan, how many tokens are left with it, and how long it has still to run.
#[derive(Clone, Copy)]
pub struct Stand {
    pub place: usize,
    pub left: u32,
    pub run: u32,
}

// Where each line stands.
#[derive(Clone, Copy)]
pub struct Sweep {
    pub lines: [Stand; 16],
}

// A line before anything has run.
pub fn first_stand(p: &[u32], v: usize) -> Stand
    requires { v < 2 ^ 32 }
    ensures { result ≡ first_stand p.now v }
{
    let place = lines::line_place(p, v);
    Stand {
        place,
        left: word_at(p, 4 + 2 * v),
        run: word_at(p, place + 1),
    }
}

// All lines before anything has run.
pub fn begin(p: &[u32]) -> Sweep
    requires { word p.now 2 ≤ 16 }
    ensures { Begun p.now (word p.now 2) result.lines }
{
    // nothing is left of a line that the plan hasn't
    let none = Stand {
        place: 0,
        left: 0,
        run: 0,
    };
    let mut s = Sweep { lines: [none; 16] };
    for v in 0..number_at(p, 2) {
        s.lines[v] = first_stand(p, v);
    }
    s
}

// The fewer ticks to run. 0 stands for no end, in place of an `Option`: the definition `sooner` counts so.
#[tactic(auto, unfolding(crate::specs::Stands::sooner))]
fn sooner(r: u32, s: Stand) -> u32
    ensures { result ≡ sooner r s }
{
    if s.left == 0 {
        return r;
    }
    if (r == 0) | (s.run < r) {
        return s.run;
    }
    r
}

// The ticks to the next end on one of the first n lines, or 0.
pub fn soonest(s: Sweep, n: usize) -> u32
    requires { n ≤ 16 }
    ensures { result ≡ soonest s.lines n }
{
    s.lines[..n].iter().fold(0, |r, line| sooner(r, *line))
}

// A line m ticks later.
#[tactic(auto, unfolding(crate::specs::Stands::later))]
fn later_line(p: &[u32], m: u32, s: Stand) -> Stand
    requires { s.place < 2 ^ 60 }
    ensures { result ≡ later p.now m s }
{
    if s.left == 0 {
        return s;
    }
    if s.run > m {
        return Stand {
            place: s.place,
            left: s.left,
            run: s.run - m,
        };
    }
    let place = s.place + lines::token_width(p);
    Stand {
        place,
        left: s.left - 1,
        run: word_at(p, place + 1),
    }
}

// The first n lines m ticks later.
pub fn later(p: &[u32], mut s: Sweep, n: usize, m: u32) -> Sweep
    requires { (n ≤ 16) × ((v : ℕ) → v < n → (line_at s.lines v).place < 2 ^ 60) }
    ensures { Later p.now n m s.lines result.lines }
{
    for v in 0..n {
        s.lines[v] = later_line(p, m, s.lines[v]);
    }
    s
}

// All times at which a token starts or ends, in order, into lent words, and the number of the last of them.
pub fn moments(p: &[u32], times: &mut [u32]) -> usize
    requires { Sweeps p.now × (8192 ≤ length times.old) }
    ensures { Moments p.now times.new result × (result < 8192) × (length times.new ≡ length times.old) }
{
    let n = number_at(p, 2);
    let mut s = begin(p);
    let mut at = 0;
    let mut time: u32 = 0;
    let mut next = soonest(s, n);
    // a `while`: how many turns there are isn't known before the last
    while next != 0 {
        times[at] = time;
        at += 1;
        time += next;
        s = later(p, s, n, next);
        next = soonest(s, n);
    }
    times[at] = time;
    at
}
