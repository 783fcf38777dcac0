// The layout of a plan, answers 5 to 7, when its lines end, answer 18, and a position on one of its timelines.
#![tactic(auto)]

ghost use Rattle.std.specs.Prelude.{◌≡◌, ◌*◌, ◌≤◌, ◌<◌, ◌^◌};
ghost use Rattle.answers.specs.Numbers.{numbers_of};
ghost use Rattle.clock.specs.Clock.{no_limit};
ghost use Rattle.lines.specs.Lines.{token_width, job_at, line_place, line_of};
ghost use Rattle.lines.specs.Ends.{line_end, plan_end, ends_fault};
ghost use Rattle.lines.specs.Fault.{sum_before, head_wrong, lines_fault};
ghost use Rattle.lines.specs.Walk.{position, step_of};

use answers::{Answer, Done, Refusal};
use clock::Time;

// A token of a timeline: its value, when it starts and ends, and its job.
#[derive(Clone, Copy)]
pub struct Token {
    pub value: u32,
    pub start: Time,
    pub end: Time,
    pub job: u32,
}

// A place on a timeline: its line, the number of the next token there, and when that starts.
#[derive(Clone, Copy)]
pub struct Position {
    pub line: u32,
    pub token: u32,
    pub start: Time,
}

// What a step gives: the token and the next position, or the position back. It is no Result: the end of a line is no error, and
// `step_of` gives the position back there.
#[derive(Clone, Copy)]
pub enum Step {
    Handed(Token, Position),
    NoMore(Position),
}

// How many words a token of the plan has.
#[tactic(auto, unfolding(crate::specs::Lines::token_width))]
pub fn token_width(plan: &[u32]) -> usize
    ensures { (result ≡ token_width plan.now) × (2 ≤ result) × (result ≤ 3) }
{
    if words::word_at(plan, 0) == 2 { 3 } else { 2 }
}

// How many words so many tokens have.
pub fn words_of(width: usize, tokens: usize) -> usize
    requires { (width ≤ 3) × (tokens < 2 ^ 40) }
    ensures { (result ≡ width * tokens) × (result ≤ 3 * tokens) }
{
    width * tokens
}

// The job of the token at a place.
#[tactic(auto, unfolding(crate::specs::Lines::job_at))]
pub fn job_at(plan: &[u32], place: usize) -> u32
    requires { place < 2 ^ 60 }
    ensures { result ≡ job_at plan.now place }
{
    let edition = words::word_at(plan, 0);
    if edition == 2 {
        words::word_at(plan, place + 2)
    } else {
        0
    }
}

// Where the tokens of line v stand.
pub fn line_place(plan: &[u32], v: usize) -> usize
    requires { v < 2 ^ 40 }
    ensures { (result ≡ line_place plan.now v) × (result < 2 ^ 36) }
{
    let lines = words::number_at(plan, 2);
    let first = words::number_at(plan, 3 + 2 * v);
    let width = token_width(plan);
    3 + 2 * lines + words_of(width, first)
}

// What the first token of line v has to be: the running sum of the counts before it.
#[tactic(auto, unfolding(crate::specs::Fault::sum_before))]
fn sum_before(plan: &[u32], v: usize) -> usize
    requires { v < 2 ^ 40 }
    ensures { (result ≡ sum_before plan.now v) × (result < 2 ^ 33) }
{
    if v == 0 {
        return 0;
    }
    let first = words::number_at(plan, 3 + 2 * (v - 1));
    let tokens = words::number_at(plan, 4 + 2 * (v - 1));
    first + tokens
}

// Whether word k before the tokens is wrong.
#[tactic(auto, unfolding(crate::specs::Fault::head_wrong))]
fn head_wrong(book: &[u32], plan: &[u32], k: usize) -> bool
    requires { k < 2 ^ 40 }
    ensures { result ≡ head_wrong book.now plan.now k }
{
    let x = words::number_at(plan, k);
    match k {
        0 => (x != 1) & (x != 2),
        1 => x != plan.len(),
        2 => x != words::number_at(book, 2),
        _ if k % 2 == 1 => x != sum_before(plan, (k - 3) / 2),
        _ => x > 512,
    }
}

// What is wrong with the plan up to its tokens, given the book: the first of answers 5 to 7 that fits, or no fault.
pub fn check(book: &[u32], plan: &[u32]) -> Answer
    ensures { numbers_of result ≡ lines_fault book.now plan.now }
{
    let n = words::number_at(book, 2);
    let start = 3 + 2 * n;
    let length = plan.len();
    if (length < start) | (length > 16384) {
        return Err(Refusal::PlanLength);
    }
    for k in 0..start {
        if head_wrong(book, plan, k) {
            return Err(Refusal::PlanHeader { word: k as u32 });
        }
    }
    let sum = sum_before(plan, n);
    let width = token_width(plan);
    if start + words_of(width, sum) != length {
        return Err(Refusal::PlanEnd);
    }
    Ok(Done { a: 0, b: 0 })
}

// When line v ends. The sum of a line's durations fits 64 bits, whatever the words are.
fn line_end(plan: &[u32], v: usize) -> u64
    requires { v < 2 ^ 32 }
    ensures { result ≡ line_end (line_of plan.now v) }
{
    let width = token_width(plan);
    let tokens = words::number_at(plan, 4 + 2 * v);
    let place = line_place(plan, v);
    let mut end: u64 = 0;
    for j in 0..tokens {
        let at = place + words_of(width, j);
        end += words::word_at(plan, at + 1) as u64;
    }
    end
}

// When the plan ends, if its lines end together.
pub fn plan_end(plan: &[u32]) -> u64
    ensures { result ≡ plan_end (line_of plan.now) }
{
    line_end(plan, 0)
}

// What is wrong with the lines' ends: answer 18 for the first that doesn't end with line 0, or no fault.
pub fn check_ends(book: &[u32], plan: &[u32]) -> Answer
    ensures { numbers_of result ≡ ends_fault book.now plan.now }
{
    let n = words::word_at(book, 2);
    let end = line_end(plan, 0);
    for v in 0..n {
        if line_end(plan, v as usize) != end {
            return Err(Refusal::EndsApart { timeline: v });
        }
    }
    Ok(Done { a: 0, b: 0 })
}

impl Position {
    // The first token of a line.
    pub fn at_start(line: u32) -> Position
        ensures { result ≡ position line 0 0 }
    {
        Position {
            line,
            token: 0,
            start: Time { tick: 0 },
        }
    }

    // A position that names no token.
    pub fn nowhere(line: u32) -> Position
        ensures { result ≡ position line no_limit 0 }
    {
        Position {
            line,
            token: Time::NO_LIMIT,
            start: Time { tick: 0 },
        }
    }

    // The token that the position names, with the next position; or no more, and the position back.
    pub fn step(self, plan: &[u32]) -> Step
        ensures { result ≡ step_of plan.now self }
    {
        let line = self.line;
        let number = self.token;
        let start = self.start;
        let l = line as usize;
        let k = number as usize;
        let lines = words::number_at(plan, 2);
        if lines <= l {
            return Step::NoMore(self);
        }
        let tokens = words::number_at(plan, 4 + 2 * l);
        if tokens <= k {
            return Step::NoMore(self);
        }
        let width = token_width(plan);
        let at = line_place(plan, l) + words_of(width, k);
        if plan.len() < at + width {
            return Step::NoMore(self);
        }
        match start.plus(words::word_at(plan, at + 1)) {
            None => Step::NoMore(self),
            Some(end) => Step::Handed(
                Token {
                    value: words::word_at(plan, at),
                    start,
                    end,
                    job: job_at(plan, at),
                },
                Position {
                    line,
                    token: number + 1,
                    start: end,
                },
            ),
        }
    }
}
