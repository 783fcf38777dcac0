// The C side of a desk's own judgement: a book and a plan as bytes and the lent list of desks in, the answer's numbers out, one by one.
#![tactic(auto)]

ghost use Rattle.std.specs.Prelude.{◌≡◌};
ghost use Rattle.answers.specs.Numbers.{numbers_of};
ghost use Rattle.words.specs.Bytes.{file_words};
ghost use Rattle.desks.specs.Own.{judged_desk};

use answers::Answer;

// A desk's answer for the bytes of a book and a plan. A file that is too long, or no multiple of 4, is no words.
pub fn judge_desk(book: &[u8], plan: &[u8], desks: &[u32], desk: u32) -> Answer
    ensures { numbers_of result ≡ judged_desk (file_words book.now) (file_words plan.now) desks.now desk }
{
    let mut b = [0u32; 16384];
    let mut p = [0u32; 16384];
    let book = words::loaded(book, &mut b);
    let plan = words::loaded(plan, &mut p);
    desks::judge_desk(book, plan, desks, desk)
}

// For C: a desk's own judgement.
#[unsafe(no_mangle)]
pub extern "C" fn tteokbiran_judge_desk(
    book: &[u8],
    plan: &[u8],
    desks: &[u32],
    desk: u32,
    number: &mut u32,
    a: &mut u32,
    b: &mut u32,
    c: &mut u32,
)
    ensures number_after { number.new ≡ (judged_desk (file_words book.now) (file_words plan.now) desks.now desk).number }
    ensures a_after { a.new ≡ (judged_desk (file_words book.now) (file_words plan.now) desks.now desk).a }
    ensures b_after { b.new ≡ (judged_desk (file_words book.now) (file_words plan.now) desks.now desk).b }
    ensures c_after { c.new ≡ (judged_desk (file_words book.now) (file_words plan.now) desks.now desk).c }
{
    answers::numbers_of(judge_desk(book, plan, desks, desk)).tell(number, a, b, c);
}
