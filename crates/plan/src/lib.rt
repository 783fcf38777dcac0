// The tokens of a plan: answers 8 to 11, behind those of its layout.
#![tactic(auto)]

ghost use Rattle.std.specs.Prelude.{◌≡◌, ◌+◌, ◌*◌, ◌≤◌, ◌<◌, ◌^◌, length};
ghost use Rattle.answers.specs.Numbers.{numbers_of};
ghost use Rattle.lines.specs.Lines.{line_count, token_width, line_place};
ghost use Rattle.plan.specs.Fault.{outside_of, tokens_fault, plan_fault};
ghost use Rattle.plan.specs.Judge.{Inside, Constants, Within, value_at, breaks_of, line_answer};

use answers::{Answer, Done, Refusal};
use clock::Time;

// What the tokens of a line are read by: their place and number, how many values the line's variable has, where the book has the
// first of them, and how many of them the book wholly has.
#[derive(Clone, Copy)]
struct Line {
    place: usize,
    tokens: u32,
    values: u32,
    base: usize,
    inside: u32,
}

// A value, as the book has it: its least and greatest duration, and its successor set.
#[derive(Clone, Copy)]
struct Value {
    least: u32,
    greatest: u32,
    next: u32,
}

// Whether a duration, which is a difference from 0, is outside the bounds of its value.
fn outside(least: u32, greatest: u32, d: u32) -> bool
    ensures { result ≡ outside_of least greatest d }
{
    let none = Time { tick: 0 };
    let all = Time { tick: d as u64 };
    !none.in_bounds(all, least, greatest)
}

// Whether a value may not stand where it does: any may stand first, and later those in the set of the token before.
#[tactic(auto, unfolding(crate::specs::Judge::breaks_of))]
fn breaks(first: bool, set: u32, x: u32) -> bool
    ensures { result ≡ breaks_of first set x }
{
    !first && !words::in_set(set, x)
}

// How many of the values, all of them or none, the book has wholly from a place on.
fn inside_of(book: &[u32], base: usize, values: u32) -> u32
    requires { base < 2 ^ 36 }
    ensures { Inside book.now base values result }
{
    if base + (values as usize) * 3 <= book.len() {
        return values;
    }
    0
}

// What the tokens of line v are read by.
fn line_of(book: &[u32], plan: &[u32], v: usize) -> Line
    requires { v < 2 ^ 32 }
    ensures { Constants book.now plan.now v result }
{
    let variable = words::number_at(book, 3) + v * 2;
    let first = words::number_at(book, variable);
    let values = words::word_at(book, variable + 1);
    let base = words::number_at(book, 5) + first * 3;
    let inside = inside_of(book, base, values);
    let place = lines::line_place(plan, v);
    let tokens = words::word_at(plan, 4 + 2 * v);
    Line {
        place,
        tokens,
        values,
        base,
        inside,
    }
}

// Value x of the line's variable, or none where the variable lacks it. A good book has it wholly; what lies past the end of another is 0.
fn value_of(book: &[u32], line: Line, x: u32) -> Option<Value>
    requires { (line.base < 2 ^ 36) × Inside book.now line.base line.values line.inside }
    ensures { result ≡ value_at book.now line.values (line.base + x * 3) x }
{
    let at = line.base + (x as usize) * 3;
    if x < line.inside {
        return Some(Value {
            least: book[at],
            greatest: book[at + 1],
            next: book[at + 2],
        });
    }
    if line.values <= x {
        return None;
    }
    Some(Value {
        least: words::word_at(book, at),
        greatest: words::word_at(book, at + 1),
        next: words::word_at(book, at + 2),
    })
}

// What is wrong with the first faulty token of a line. The running start and the successor set of the token before are carried along.
fn line_fault(book: &[u32], plan: &[u32], timeline: u32) -> Answer
    requires { line_place plan.now timeline + token_width plan.now * line_count plan.now timeline ≤ length plan.now }
    ensures { numbers_of result ≡ line_answer book.now plan.now timeline }
{
    let width = lines::token_width(plan);
    let line = line_of(book, plan, timeline as usize);
    let mut start = Time { tick: 0 };
    let mut set: u32 = 0;
    for token in 0..line.tokens {
        let at = line.place + lines::words_of(width, token as usize);
        let x = plan[at];
        let d = plan[at + 1];
        let Some(value) = value_of(book, line, x) else {
            return Err(Refusal::ValueUnknown { timeline, token });
        };
        if outside(value.least, value.greatest, d) {
            return Err(Refusal::DurationOutside { timeline, token });
        }
        if breaks(token == 0, set, x) {
            return Err(Refusal::NotSuccessor { timeline, token });
        }
        let Some(end) = start.plus(d) else {
            return Err(Refusal::PastLastTick { timeline, token });
        };
        start = end;
        set = value.next;
    }
    Ok(Done { a: 0, b: 0 })
}

// What is wrong with the first faulty token of the first line that has one.
fn check_tokens(book: &[u32], plan: &[u32]) -> Answer
    requires { Within book.now plan.now }
    ensures { numbers_of result ≡ tokens_fault book.now plan.now }
{
    for v in 0..words::word_at(book, 2) {
        line_fault(book, plan, v)?;
    }
    Ok(Done { a: 0, b: 0 })
}

// What is wrong with the plan, given the book: the first of answers 5 to 11 and 18 that fits, or no fault.
pub fn check(book: &[u32], plan: &[u32]) -> Answer
    ensures { numbers_of result ≡ plan_fault book.now plan.now }
{
    lines::check(book, plan)?;
    check_tokens(book, plan)?;
    lines::check_ends(book, plan)
}
