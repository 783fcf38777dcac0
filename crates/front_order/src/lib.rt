// The C side of books that speak only of order: files as bytes in, yes or no, or the answer's numbers, one by one, out.
#![tactic(auto)]

ghost use Rattle.std.specs.Prelude.{◌≡◌};
ghost use Rattle.answers.specs.Numbers.{numbers_of};
ghost use Rattle.words.specs.Bytes.{file_words};
ghost use Rattle.order.specs.Profile.{order_only};
ghost use Rattle.order.specs.Judged.{judged_by_order};

use answers::Answer;

// Whether the bytes are a sound book that speaks only of order.
pub fn order_only(book: &[u8]) -> bool
    ensures { result ≡ order_only (file_words book.now) }
{
    let mut b = [0u32; 16384];
    order::order_only(words::loaded(book, &mut b))
}

// The answer by ranks for the bytes of a book and a plan.
pub fn judge_by_order(book: &[u8], plan: &[u8]) -> Answer
    ensures { numbers_of result ≡ judged_by_order (file_words book.now) (file_words plan.now) }
{
    let mut b = [0u32; 16384];
    let mut p = [0u32; 16384];
    order::judge_by_order(words::loaded(book, &mut b), words::loaded(plan, &mut p))
}

// For C: whether a book speaks only of order.
#[unsafe(no_mangle)]
pub extern "C" fn tteokbiran_order_only(book: &[u8]) -> bool
    ensures { result ≡ order_only (file_words book.now) }
{
    order_only(book)
}

// For C: the judge by ranks.
#[unsafe(no_mangle)]
pub extern "C" fn tteokbiran_judge_by_order(
    book: &[u8],
    plan: &[u8],
    number: &mut u32,
    a: &mut u32,
    b: &mut u32,
    c: &mut u32,
)
    ensures number_after { number.new ≡ (judged_by_order (file_words book.now) (file_words plan.now)).number }
    ensures a_after { a.new ≡ (judged_by_order (file_words book.now) (file_words plan.now)).a }
    ensures b_after { b.new ≡ (judged_by_order (file_words book.now) (file_words plan.now)).b }
    ensures c_after { c.new ≡ (judged_by_order (file_words book.now) (file_words plan.now)).c }
{
    answers::numbers_of(judge_by_order(book, plan)).tell(number, a, b, c);
}
