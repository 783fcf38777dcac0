// The judge: a book and a plan, or a sheet and a plan, each any run of words at all. The edition e stays a number: `judged_by` is said of
// every e.
#![tactic(auto)]

ghost use Rattle.std.specs.Prelude.{◌≡◌, ◌+◌, ◌*◌, ◌<◌, ◌^◌};
ghost use Rattle.words.specs.Words.{word};
ghost use Rattle.clock.specs.Clock.{no_limit};
ghost use Rattle.answers.specs.Numbers.{numbers_of};
ghost use Rattle.layout.specs.Layout.{record_at};
ghost use Rattle.lines.specs.Lines.{token, job_at, line_of};
ghost use Rattle.verdict.specs.Judged.{examined, judged, judged_sheet};
ghost use Rattle.verdict.specs.Survey.{Surveyed, placed_rules, placed_fault, judged_by};

use answers::{Answer, Done, Refusal};
use clock::Time;
use lines::Token;
use marks::Found;
use words::{number_at, word_at};

// The token at a place of the plan, which lasts from start to end.
fn token_at(p: &[u32], at: usize, start: u64, end: u64) -> Token
    requires { at < 2 ^ 60 }
    ensures { result ≡ token (word p.now at) start end (job_at p.now at) }
{
    Token {
        value: word_at(p, at),
        start: Time { tick: start },
        end: Time { tick: end },
        job: lines::job_at(p, at),
    }
}

// How many trigger tokens the rule at a place has, on its trigger's line, or the first for which it isn't met. `kept` is room for what is found
// for one trigger token and serves the next; it may hold anything.
fn survey_line(
    e: usize,
    b: &[u32],
    p: &[u32],
    place: usize,
    kept: &mut [Option<Found>; 64],
) -> Result<u32, u32>
    requires { (place < 2 ^ 60) × (word b.now place ≡ no_limit → ⊥) }
    ensures { Surveyed e b.now p.now place result }
{
    let last = lines::plan_end(p);
    let line = number_at(b, place);
    let value = word_at(b, place + 1);
    let first = word_at(b, place + 2);
    let n = word_at(b, place + 3);
    let count = word_at(p, 4 + 2 * line);
    let width = lines::token_width(p);
    let mut at = lines::line_place(p, line);
    let mut start: u64 = 0;
    let mut seen: u32 = 0;
    matching::forget(kept, n as usize);
    for token in 0..count {
        let end = start + word_at(p, at + 1) as u64;
        if word_at(p, at) == value {
            let t = token_at(p, at, start, end);
            if !matching::met(e, b, p, first, n, last, t, kept) {
                return Err(token);
            }
            seen += 1;
        }
        start = end;
        at += width;
    }
    Ok(seen)
}

// How many trigger tokens the rule at a place has, or the first for which it isn't met. A rule without trigger needs to be met
// once, and counts 1.
fn survey(
    e: usize,
    b: &[u32],
    p: &[u32],
    place: usize,
    kept: &mut [Option<Found>; 64],
) -> Result<u32, u32>
    requires { place < 2 ^ 60 }
    ensures { Surveyed e b.now p.now place result }
{
    if word_at(b, place) != Time::NO_LIMIT {
        return survey_line(e, b, p, place, kept);
    }
    let n = word_at(b, place + 3);
    matching::forget(kept, n as usize);
    let met = matching::met(
        e,
        b,
        p,
        word_at(b, place + 2),
        n,
        lines::plan_end(p),
        choice::nobody(),
        kept,
    );
    if met { Ok(1) } else { Err(0) }
}

// How many trigger tokens one rule of a book has, by its number, or the first for which it isn't met.
pub fn survey_rule(book: &[u32], plan: &[u32], rule: u32) -> Result<u32, u32>
    ensures { Surveyed 1 book.now plan.now (record_at 1 book.now 2 rule) result }
{
    let place = number_at(book, 7) + rule as usize * 4;
    survey(1, book, plan, place, &mut [None; 64])
}

// All rules in order: the first that isn't met, or how many trigger tokens were examined.
pub fn examine(e: usize, b: &[u32], p: &[u32]) -> Answer
    requires { examined (line_of p.now) (placed_rules e b.now) < 2 ^ 32 }
    ensures { numbers_of result ≡ placed_fault e b.now p.now }
{
    let n = word_at(b, 6);
    let table = number_at(b, 7);
    let mut seen: u32 = 0;
    let mut kept = [None; 64];
    for rule in 0..n {
        let place = table + 4 * rule as usize;
        match survey(e, b, p, place, &mut kept) {
            Ok(count) => seen += count,
            Err(token) => return Err(Refusal::RuleNotMet { rule, token }),
        }
    }
    Ok(Done { a: seen, b: 0 })
}

// The judge for edition 1, a book, or 2, a sheet.
fn judge_by(e: usize, b: &[u32], p: &[u32]) -> Answer
    ensures { numbers_of result ≡ judged_by e b.now p.now }
{
    book::check(b, e)?;
    plan::check(b, p)?;
    examine(e, b, p)
}

// The answer for a book and a plan.
pub fn judge(book: &[u32], plan: &[u32]) -> Answer
    ensures { numbers_of result ≡ judged book.now plan.now }
{
    judge_by(1, book, plan)
}

// The answer for a sheet and a plan, the sheet read directly: constraints in place of atoms.
pub fn judge_sheet(sheet: &[u32], plan: &[u32]) -> Answer
    ensures { numbers_of result ≡ judged_sheet sheet.now plan.now }
{
    judge_by(2, sheet, plan)
}
