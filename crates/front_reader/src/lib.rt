// The C side of the reader: lent words and a position in, its numbers out, one by one.
#![tactic(auto)]

ghost use Rattle.std.specs.Prelude.{◌≡◌};
ghost use Rattle.lines.specs.Walk.{position, names, step_of};
ghost use Rattle.reader.specs.Opening.{open_fault, open_at};
ghost use Rattle.front_reader.specs.Stepped.{Stepped};

use clock::Time;
use lines::{Position, Step};

// For C: opens a reader over one timeline of a plan, in lent words.
#[unsafe(no_mangle)]
pub extern "C" fn tteokbiran_open(
    book: &[u32],
    plan: &[u32],
    line: u32,
    number: &mut u32,
    a: &mut u32,
    b: &mut u32,
    c: &mut u32,
    token: &mut u32,
)
    ensures number_after { number.new ≡ (open_fault book.now plan.now line).number }
    ensures a_after { a.new ≡ (open_fault book.now plan.now line).a }
    ensures b_after { b.new ≡ (open_fault book.now plan.now line).b }
    ensures c_after { c.new ≡ (open_fault book.now plan.now line).c }
    ensures token_after { token.new ≡ (open_at book.now plan.now line).token }
{
    let opened = reader::open(book, plan, line);
    answers::numbers_of(opened.answer).tell(number, a, b, c);
    *token = opened.at.token;
}

// For C: a step on a timeline of lent words. Whether a token was handed out; then its value, end and job are there, and token and
// start are the next position's. Else nothing is changed.
#[unsafe(no_mangle)]
pub extern "C" fn tteokbiran_step(
    plan: &[u32],
    line: u32,
    token: &mut u32,
    start: &mut u64,
    value: &mut u32,
    end: &mut u64,
    job: &mut u32,
) -> bool
    ensures value { result ≡ names plan.now (position line token.old start.old) }
    ensures stepped { Stepped (step_of plan.now (position line token.old start.old)) token.old start.old value.old end.old job.old token.new start.new value.new end.new job.new }
{
    let at = Position {
        line,
        token: *token,
        start: Time { tick: *start },
    };
    match reader::read_at(plan, at) {
        Step::Handed(t, next) => {
            *token = next.token;
            *start = next.start.tick;
            *value = t.value;
            *end = t.end.tick;
            *job = t.job;
            true
        }
        Step::NoMore(_) => false,
    }
}
