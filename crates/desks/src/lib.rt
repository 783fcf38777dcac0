// Two desks that share a book: whose each rule is, and a desk's own judgement.
#![tactic(auto)]

ghost use Rattle.std.specs.Prelude.{◌≡◌, ◌^◌, ◌<◌};
ghost use Rattle.answers.specs.Numbers.{numbers_of};
ghost use Rattle.book.specs.Rules.{rules_of};
ghost use Rattle.book.specs.Encode.{atoms};
ghost use Rattle.lines.specs.Lines.{line_of};
ghost use Rattle.verdict.specs.Judged.{examined};
ghost use Rattle.desks.specs.List.{list_right};
ghost use Rattle.desks.specs.Own.{own_fault, judged_desk};

use answers::{Answer, Done, Refusal};
use words::{number_at, word_at};

// Whether a lent list has one word for each rule of the book, 0 or 1.
pub fn list_right(book: &[u32], desks: &[u32]) -> bool
    ensures { result ≡ list_right book.now desks.now }
{
    desks.len() == number_at(book, 6) && desks.iter().all(|desk| *desk <= 1)
}

// The rules of a desk in order: the first that isn't met, with its number in the book, or how many trigger tokens were examined.
fn examine_own(b: &[u32], p: &[u32], desks: &[u32], desk: u32) -> Answer
    requires { examined (line_of p.now) (rules_of atoms b.now) < 2 ^ 32 }
    ensures { numbers_of result ≡ own_fault b.now p.now desks.now desk }
{
    let n = word_at(b, 6);
    let mut seen: u32 = 0;
    for rule in 0..n {
        if word_at(desks, rule as usize) == desk {
            match verdict::survey_rule(b, p, rule) {
                Ok(count) => seen += count,
                Err(token) => return Err(Refusal::RuleNotMet { rule, token }),
            }
        }
    }
    Ok(Done { a: seen, b: 0 })
}

// A desk's own judgement of a book and a plan that it shares with another; the list says whose each rule is.
pub fn judge_desk(book: &[u32], plan: &[u32], desks: &[u32], desk: u32) -> Answer
    ensures { numbers_of result ≡ judged_desk book.now plan.now desks.now desk }
{
    book::check(book, 1)?;
    if !list_right(book, desks) || desk > 1 {
        return Err(Refusal::NoSuchDesk);
    }
    plan::check(book, plan)?;
    examine_own(book, plan, desks, desk)
}
