// The plan that a list of events gives: for each line one pass over the list's words, whatever they are.
#![tactic(auto)]

ghost use Rattle.std.specs.Prelude.{◌≡◌, ◌+◌, ◌*◌, ◌<◌, ◌≤◌, ◌^◌, length};
ghost use mathlib.Core.List.{flat_map};
ghost use Rattle.words.specs.Words.{word};
ghost use Rattle.words.specs.Write.{Wrote};
ghost use Rattle.event_list.specs.Events.{plan_token};
ghost use Rattle.event_list.specs.Words.{action_width};
ghost use Rattle.event_list.specs.Plans.{token_words, line_words, head_words, plan_words};
ghost use Rattle.event_list.specs.Reading.{action_job, ends_here, add_ticks, read_line, read_lines};
ghost use Rattle.reading.specs.Pass.{step, closes_at, closed_at, Puts};

use words::word_at;

// Where a pass is: the place, how many actions of this event are still to come, and the ticks since the line's last end.
#[derive(Clone, Copy)]
struct Pass {
    place: usize,
    left: u32,
    ticks: u32,
}

// Where the next token goes, and how many there are.
#[derive(Clone, Copy)]
pub struct Put {
    pub at: usize,
    pub tokens: u32,
}

// The words of an action.
#[tactic(auto, unfolding(event_list::specs::Words::action_width))]
fn action_width(list: &[u32]) -> usize
    ensures { (result ≡ action_width (word list.now 0)) × (result ≤ 4) }
{
    if word_at(list, 0) == 2 {
        return 4;
    }
    3
}

// The job of the action at a place.
#[tactic(auto, unfolding(event_list::specs::Reading::action_job))]
fn action_job(list: &[u32], place: usize) -> u32
    requires { place < 2 ^ 40 }
    ensures { result ≡ action_job list.now place }
{
    if word_at(list, 0) == 2 {
        return word_at(list, place + 3);
    }
    0
}

// Whether the action at a place is an end on line x.
#[tactic(auto, unfolding(event_list::specs::Reading::ends_here))]
fn ends_here(list: &[u32], x: u32, place: usize) -> bool
    requires { place < 2 ^ 40 }
    ensures { result ≡ ends_here list.now x place }
{
    (word_at(list, place) == x) & (word_at(list, place + 2) == 0)
}

// Ticks and a delay more, N at most.
#[tactic(auto, unfolding(event_list::specs::Reading::add_ticks))]
fn add_ticks(ticks: u32, delay: u32) -> u32
    ensures { result ≡ add_ticks ticks delay }
{
    ticks.saturating_add(delay)
}

// One step of a pass: an event begins, or an action is passed.
fn next(list: &[u32], x: u32, p: Pass) -> Pass
    requires { p.place < 2 ^ 40 }
    ensures { result ≡ step list.now x p }
{
    let place = p.place;
    if p.left == 0 {
        return Pass {
            place: place + 2,
            left: word_at(list, place + 1),
            ticks: add_ticks(p.ticks, word_at(list, place)),
        };
    }
    let width = action_width(list);
    if ends_here(list, x, place) {
        return Pass {
            place: place + width,
            left: p.left - 1,
            ticks: 0,
        };
    }
    Pass {
        place: place + width,
        left: p.left - 1,
        ticks: p.ticks,
    }
}

// Whether a token of line x ends at the place.
fn closes(list: &[u32], x: u32, p: Pass) -> bool
    requires { p.place < 2 ^ 40 }
    ensures { result ≡ closes_at list.now x p }
{
    if p.left == 0 {
        return false;
    }
    ends_here(list, x, p.place)
}

// Puts a token, by the list's edition, and answers the place behind it.
fn put_token(list: &[u32], value: u32, ticks: u32, job: u32, room: &mut [u32], at: usize) -> usize
    requires { at < 2 ^ 40 }
    ensures { Wrote room.old room.new at result (token_words (word list.now 0) (plan_token value ticks job)) × (result ≤ at + 3) }
{
    // word by word: `put_at` stores what fits, and a copy of a run would have to fit
    sink::put_at(room, at, value);
    sink::put_at(room, at + 1, ticks);
    if word_at(list, 0) == 2 {
        sink::put_at(room, at + 2, job);
        return at + 3;
    }
    at + 2
}

// Puts the token of line x that ends at the place, if one does.
fn close(list: &[u32], x: u32, p: Pass, room: &mut [u32], o: Put) -> Put
    requires { (p.place < 2 ^ 40) × (o.at < 2 ^ 40) × (o.tokens < 2 ^ 20) }
    ensures { Wrote room.old room.new o.at result.at (line_words (word list.now 0) (closed_at list.now x p)) × (result.tokens ≡ o.tokens + length (closed_at list.now x p)) × (result.tokens ≤ o.tokens + 1) × (result.at ≤ o.at + 3) }
{
    if !closes(list, x, p) {
        return o;
    }
    let place = p.place;
    let value = word_at(list, place + 1);
    let job = action_job(list, place);
    let at = put_token(list, value, p.ticks, job, room, o.at);
    Put {
        at,
        tokens: o.tokens + 1,
    }
}

// Puts the tokens of line x behind `at`, and counts them.
fn read_line(list: &[u32], x: u32, room: &mut [u32], at: usize) -> Put
    requires { (length list.now ≤ 65536) × (at < 2 ^ 32) }
    ensures { Puts list.now room.old room.new at result (read_line list.now x) (length list.now) }
{
    let mut o = Put { at, tokens: 0 };
    let mut p = Pass {
        place: 3,
        left: 0,
        ticks: 0,
    };
    // each step passes a word or more
    for _ in 0..list.len() {
        if list.len() <= p.place {
            return o;
        }
        o = close(list, x, p, room, o);
        p = next(list, x, p);
    }
    o
}

// How many tokens line x has.
fn count_line(list: &[u32], x: u32) -> u32
    requires { length list.now ≤ 65536 }
    ensures { (result ≡ length (read_line list.now x)) × (result ≤ 65536) }
{
    let mut none = [0u32; 1];
    read_line(list, x, &mut none, 0).tokens
}

// Puts, for each of the first n lines, its first token and token count, and answers the place behind them.
fn put_heads(list: &[u32], n: u32, room: &mut [u32], at: usize) -> usize
    requires { (length list.now ≤ 65536) × (n ≤ 16) × (at < 2 ^ 20) }
    ensures { Wrote room.old room.new at result (head_words 0 (read_lines list.now n)) }
{
    let mut before: u32 = 0;
    for x in 0..n {
        let tokens = count_line(list, x);
        let to = at + 2 * x as usize;
        sink::put_at(room, to, before);
        sink::put_at(room, to + 1, tokens);
        before += tokens;
    }
    at + 2 * n as usize
}

// Puts the tokens of the first n lines, and answers the place behind them.
fn put_lines(list: &[u32], n: u32, room: &mut [u32], at: usize) -> usize
    requires { (length list.now ≤ 65536) × (n ≤ 16) × (at < 2 ^ 20) }
    ensures { Wrote room.old room.new at result (flat_map (line_words (word list.now 0)) (read_lines list.now n)) × (result ≤ at + 196608 * n) }
{
    let mut to = at;
    for x in 0..n {
        to = read_line(list, x, room, to).at;
    }
    to
}

// Puts the plan of n lines that a list gives at the start of a room, where it fits, and answers how many words it has.
pub fn put_plan(list: &[u32], n: u32, room: &mut [u32]) -> usize
    requires { (length list.now ≤ 65536) × (n ≤ 16) }
    ensures { Wrote room.old room.new 0 result (plan_words (word list.now 0) (read_lines list.now n)) × (result < 2 ^ 32) }
{
    let mut none = [0u32; 1];
    let total = put_lines(list, n, &mut none, 3 + 2 * n as usize);
    let edition = word_at(list, 0);
    sink::put_at(room, 0, edition);
    sink::put_at(room, 1, total as u32);
    sink::put_at(room, 2, n);
    let at = put_heads(list, n, room, 3);
    put_lines(list, n, room, at)
}
