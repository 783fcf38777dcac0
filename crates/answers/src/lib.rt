// The answers of the judge, the translator and the reader: a case for each row of the fault table, and their numbers.
#![tactic(auto)]

ghost use Rattle.std.specs.Prelude.{◌≡◌};
ghost use Rattle.answers.specs.Numbers.{numbers, numbers_at, numbers_refused, numbers_of};

use std::fmt;

// What is wrong, and where. No two cases share their numbers, so a contract on the numbers settles the case.
#[derive(Clone, Copy, Debug, PartialEq, Eq)]
pub enum Refusal {
    BookLength,
    BookHeader { word: u32 },
    BookEnd,
    BookRecord { table: u32, record: u32, word: u32 },
    PlanLength,
    PlanHeader { word: u32 },
    PlanEnd,
    ValueUnknown { timeline: u32, token: u32 },
    DurationOutside { timeline: u32, token: u32 },
    NotSuccessor { timeline: u32, token: u32 },
    PastLastTick { timeline: u32, token: u32 },
    RuleNotMet { rule: u32, token: u32 },
    TooManyAlternatives { rule: u32 },
    TooLong { table: u32 },
    RoomTooShort { words: u32 },
    NoSuchTimeline,
    EndsApart { timeline: u32 },
    NoSuchDesk,
    NotAnEventList,
    EventRoomTooShort { words: u32 },
    NoSuchRules,
    NotOrderOnly,
    NoSuchAlternative,
    TableTooShort,
}

// The one way to be right, with the numbers that its function promises.
#[derive(Clone, Copy, Debug, PartialEq, Eq)]
pub struct Done {
    pub a: u32,
    pub b: u32,
}

// What a function answers: what it has done, or the first thing that is wrong.
pub type Answer = Result<Done, Refusal>;

// The four numbers that an answer is shown as.
#[derive(Clone, Copy, Debug, PartialEq, Eq)]
pub struct Numbers {
    pub number: u32,
    pub a: u32,
    pub b: u32,
    pub c: u32,
}

// A row of the fault table whose place ends with a word of a record.
fn row_at(number: u32, a: u32, b: u32, c: u32) -> Numbers
    ensures { result ≡ numbers_at number a b c }
{
    Numbers { number, a, b, c }
}

// Any other row.
fn row(number: u32, a: u32, b: u32) -> Numbers
    ensures { result ≡ numbers number a b }
{
    row_at(number, a, b, 0)
}

// The numbers of a refusal.
fn numbers_refused(r: Refusal) -> Numbers
    ensures { result ≡ numbers_refused r }
{
    match r {
        Refusal::BookLength => row(1, 0, 0),
        Refusal::BookHeader { word } => row(2, word, 0),
        Refusal::BookEnd => row(3, 0, 0),
        Refusal::BookRecord {
            table,
            record,
            word,
        } => row_at(4, table, record, word),
        Refusal::PlanLength => row(5, 0, 0),
        Refusal::PlanHeader { word } => row(6, word, 0),
        Refusal::PlanEnd => row(7, 0, 0),
        Refusal::ValueUnknown { timeline, token } => row(8, timeline, token),
        Refusal::DurationOutside { timeline, token } => row(9, timeline, token),
        Refusal::NotSuccessor { timeline, token } => row(10, timeline, token),
        Refusal::PastLastTick { timeline, token } => row(11, timeline, token),
        Refusal::RuleNotMet { rule, token } => row(12, rule, token),
        Refusal::TooManyAlternatives { rule } => row(13, rule, 0),
        Refusal::TooLong { table } => row(14, table, 0),
        Refusal::RoomTooShort { words } => row(15, words, 0),
        Refusal::NoSuchTimeline => row(17, 0, 0),
        Refusal::EndsApart { timeline } => row(18, timeline, 0),
        Refusal::NoSuchDesk => row(19, 0, 0),
        Refusal::NotAnEventList => row(20, 0, 0),
        Refusal::EventRoomTooShort { words } => row(21, words, 0),
        Refusal::NoSuchRules => row(24, 0, 0),
        Refusal::NotOrderOnly => row(26, 0, 0),
        Refusal::NoSuchAlternative => row(27, 0, 0),
        Refusal::TableTooShort => row(25, 0, 0),
    }
}

// The numbers of an answer.
pub fn numbers_of(r: Answer) -> Numbers
    ensures { result ≡ numbers_of r }
{
    match r {
        Ok(done) => row(0, done.a, done.b),
        Err(refusal) => numbers_refused(refusal),
    }
}

impl From<Answer> for Numbers {
    ghost from_gives = { λ r x. x ≡ numbers_of r };

    fn from(r: Answer) -> Numbers {
        numbers_of(r)
    }
}

// The line that a program prints: the numbers with single spaces.
impl fmt::Display for Numbers {
    fn fmt<W: fmt::Write>(&self, f: &mut fmt::Formatter<W>) -> fmt::Result {
        write!(f, "{} {} {} {}", self.number, self.a, self.b, self.c)
    }
}

impl Numbers {
    // Tells the numbers one by one, as C takes them.
    pub fn tell(self, number: &mut u32, a: &mut u32, b: &mut u32, c: &mut u32)
        ensures number_after { number.new ≡ self.number }
        ensures a_after { a.new ≡ self.a }
        ensures b_after { b.new ≡ self.b }
        ensures c_after { c.new ≡ self.c }
    {
        *number = self.number;
        *a = self.a;
        *b = self.b;
        *c = self.c;
    }
}
