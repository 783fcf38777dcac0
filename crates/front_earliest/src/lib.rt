// The C side of the earliest times: a book as bytes and lent numbers in, the answer's numbers out, one by one.
#![tactic(auto)]

ghost use Rattle.std.specs.Prelude.{◌≡◌};
ghost use Rattle.answers.specs.Numbers.{numbers_at, numbers_of};
ghost use Rattle.words.specs.Bytes.{file_words};
ghost use Rattle.earliest.specs.Times.{Told};

use answers::Answer;

// The earliest times of an alternative of a book's bytes, into lent numbers.
pub fn earliest(book: &[u8], alternative: u32, times: &mut [u64]) -> Answer
    ensures { Told (file_words book.now) alternative (numbers_of result) times.old times.new }
{
    let mut b = [0u32; 16384];
    earliest::earliest(words::loaded(book, &mut b), alternative, times)
}

// For C: the earliest times of an alternative.
#[unsafe(no_mangle)]
pub extern "C" fn tteokbiran_earliest(
    book: &[u8],
    alternative: u32,
    times: &mut [u64],
    number: &mut u32,
    a: &mut u32,
    b: &mut u32,
    c: &mut u32,
)
    ensures { Told (file_words book.now) alternative (numbers_at number.new a.new b.new c.new) times.old times.new }
{
    answers::numbers_of(earliest(book, alternative, times)).tell(number, a, b, c);
}
