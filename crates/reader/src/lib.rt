// A reader over one timeline of a lent plan: opening it, and its steps.
#![tactic(auto)]

ghost use Rattle.std.specs.Prelude.{◌≡◌};
ghost use Rattle.answers.specs.Numbers.{numbers_of};
ghost use Rattle.lines.specs.Walk.{step_of};
ghost use Rattle.reader.specs.Opening.{open_fault, open_at};

use answers::{Answer, Done, Refusal};
use lines::{Position, Step};

// What opening gives: the answer, and where the reader stands. It is no Result: refused, `open` says where the reader stands too.
#[derive(Clone, Copy)]
pub struct Opened {
    pub answer: Answer,
    pub at: Position,
}

// A reader over one timeline of the lent plan: the plan's words and a position. It leaves the work to the position.
#[derive(Clone, Copy)]
pub struct Reader<'a> {
    pub plan: &'a [u32],
    pub at: Position,
}

// What is wrong with the book, with the plan, or with the line, in this order.
fn check(book: &[u32], plan: &[u32], line: u32) -> Answer
    ensures { numbers_of result ≡ open_fault book.now plan.now line }
{
    book::check(book, 1)?;
    plan::check(book, plan)?;
    if words::word_at(book, 2) <= line {
        return Err(Refusal::NoSuchTimeline);
    }
    Ok(Done { a: 0, b: 0 })
}

// Opens timeline `line` of a plan: what is wrong with the book, with the plan, or with the line, and where to read from.
pub fn open(book: &[u32], plan: &[u32], line: u32) -> Opened
    ensures answer_value { numbers_of result.answer ≡ open_fault book.now plan.now line }
    ensures at_value { result.at ≡ open_at book.now plan.now line }
{
    let answer = check(book, plan, line);
    let at = match answer {
        Ok(_) => Position::at_start(line),
        Err(_) => Position::nowhere(line),
    };
    Opened { answer, at }
}

impl<'a> Reader<'a> {
    // A reader that stands at a position.
    pub fn new(plan: &'a [u32], at: Position) -> Self
        ensures { (result.plan ≡ plan.entry) × (result.at ≡ at) }
    {
        Reader { plan, at }
    }

    // The step at the reader's position.
    pub fn next(self) -> Step
        ensures { result ≡ step_of self.entry.plan.now self.entry.at }
    {
        self.at.step(self.plan)
    }

    // The same reader at another position.
    pub fn moved(self, at: Position) -> Self
        ensures { (result.plan ≡ self.entry.plan) × (result.at ≡ at) }
    {
        Reader {
            plan: self.plan,
            at,
        }
    }
}

// A reader's step, from the plain words and a position.
pub fn read_at(plan: &[u32], at: Position) -> Step
    ensures { result ≡ step_of plan.now at }
{
    Reader::new(plan, at).next()
}
