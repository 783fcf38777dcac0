// The state of a sweep over a plan's lines: what is left of each, when the next token ends, and what is left then.
#![tactic(auto)]

ghost use Rattle.std.specs.Prelude.{◌≡◌, List, map, ℕ, ◌-◌, ◌<◌, ◌≤◌, ◌^◌, length};
ghost use Rattle.words.specs.Runs.{run};
ghost use Rattle.event_list.specs.Events.{to_run, later, soonest, by_line};
ghost use Rattle.event_list.specs.Plans.{line_tokens};
ghost use Rattle.moments.specs.State.{line_left, lines_left, behind, happens, Small, AllSmall};

use sweep::Stand;

// The whole of line v. As `sweep::first_stand`, which doesn't promise that no place wraps.
fn line_at(plan: &[u32], v: usize) -> Stand
    requires { v < 2 ^ 32 }
    ensures { (line_left plan.now result ≡ line_tokens plan.now v) × Small result }
{
    let place = lines::line_place(plan, v);
    let left = words::word_at(plan, 4 + 2 * v);
    let run = words::word_at(plan, place + 1);
    Stand { place, left, run }
}

// The first n lines, whole.
pub fn begin(plan: &[u32], n: usize) -> [Stand; 16]
    requires { n ≤ 16 }
    ensures { (lines_left plan.now result n 0 ≡ run (line_tokens plan.now) 1 n 0) × AllSmall result }
{
    let nothing = Stand {
        place: 0,
        left: 0,
        run: 0,
    };
    let mut s = [nothing; 16];
    for v in 0..n {
        s[v] = line_at(plan, v);
    }
    s
}

// How long the running token of a line has still to run, 0 where nothing is left.
fn to_run(l: Stand) -> u32
    ensures { (p : List ℕ) → result ≡ to_run (line_left p l) }
{
    if l.left == 0 {
        return 0;
    }
    l.run
}

// How long it is to the next end, or `most` where that is less.
pub fn soonest(s: [Stand; 16], n: usize, most: u32) -> u32
    requires { n ≤ 16 }
    ensures { (p : List ℕ) → result ≡ soonest most (lines_left p s n 0) }
{
    let mut m = most;
    for v in (0..n).rev() {
        m = m.min(to_run(s[v]));
    }
    m
}

// A line behind its running token.
pub fn next(plan: &[u32], l: Stand) -> Stand
    requires { Small l }
    ensures { (line_left plan.now result ≡ behind (line_left plan.now l)) × Small result }
{
    if l.left == 0 {
        return l;
    }
    let width = lines::token_width(plan);
    let place = l.place + width;
    let run = words::word_at(plan, place + 1);
    Stand {
        place,
        left: l.left - 1,
        run,
    }
}

// A line m ticks later: behind its running token, if that ends then. Not `sweep::later`, which goes to the next token where more ticks pass than
// the running one has.
fn line_later(plan: &[u32], l: Stand, m: u32) -> Stand
    requires { Small l }
    ensures { (line_left plan.now result ≡ later m (line_left plan.now l)) × Small result }
{
    if l.left == 0 {
        return l;
    }
    if l.run == m {
        return next(plan, l);
    }
    Stand {
        run: l.run.saturating_sub(m),
        ..l
    }
}

// The first n lines m ticks later.
pub fn later(plan: &[u32], mut s: [Stand; 16], n: usize, m: u32) -> [Stand; 16]
    requires { (n ≤ 16) × AllSmall s }
    ensures { (lines_left plan.now result n 0 ≡ map (later m) (lines_left plan.now s n 0)) × AllSmall result }
{
    for v in 0..n {
        s[v] = line_later(plan, s[v], m);
    }
    s
}

// How many ends and starts a line has at the start, or m ticks later: `first` and m side by side, as `happens` takes them.
fn count_on(l: Stand, first: bool, m: u32) -> u32
    ensures { ((p : List ℕ) (k : ℕ) → result ≡ length (happens first m k (line_left p l))) × (result ≤ 2) }
{
    if l.left == 0 {
        return 0;
    }
    if first {
        return 1;
    }
    if l.run != m {
        return 0;
    }
    if l.left == 1 {
        return 1;
    }
    2
}

// How many the first n lines have.
pub fn count(s: [Stand; 16], n: usize, first: bool, m: u32) -> u32
    requires { n ≤ 16 }
    ensures { ((p : List ℕ) → result ≡ length (by_line (happens first m) 0 (lines_left p s n 0))) × (result ≤ 32) }
{
    let mut sum = 0;
    for line in &s[..n] {
        sum += count_on(*line, first, m);
    }
    sum
}
