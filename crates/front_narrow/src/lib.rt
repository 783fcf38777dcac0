// The C side of narrowing: a sheet as bytes and a lent table in, the answer's numbers out, one by one.
#![tactic(auto)]

ghost use Rattle.std.specs.Prelude.{◌≡◌, length};
ghost use Rattle.answers.specs.Numbers.{numbers_of};
ghost use Rattle.words.specs.Bytes.{file_words};
ghost use Rattle.narrowing.specs.Sheet.{narrowing, table_after};

use answers::Answer;

// What the constraints of an alternative of a sheet leave for every two of its tokens, in a lent table.
pub fn narrow(sheet: &[u8], alternative: u32, table: &mut [u32]) -> Answer
    ensures { (numbers_of result ≡ narrowing (file_words sheet.now) alternative (length table.old)) × (table.new ≡ table_after (file_words sheet.now) alternative table.old) }
{
    let mut s = [0u32; 16384];
    narrowing::narrow(words::loaded(sheet, &mut s), alternative, table)
}

// For C: narrowing, into a lent table.
#[unsafe(no_mangle)]
pub extern "C" fn tteokbiran_narrow(
    sheet: &[u8],
    alternative: u32,
    table: &mut [u32],
    number: &mut u32,
    a: &mut u32,
    b: &mut u32,
    c: &mut u32,
)
    ensures number_after { number.new ≡ (narrowing (file_words sheet.now) alternative (length table.old)).number }
    ensures a_after { a.new ≡ (narrowing (file_words sheet.now) alternative (length table.old)).a }
    ensures b_after { b.new ≡ (narrowing (file_words sheet.now) alternative (length table.old)).b }
    ensures c_after { c.new ≡ (narrowing (file_words sheet.now) alternative (length table.old)).c }
    ensures table_after { table.new ≡ table_after (file_words sheet.now) alternative table.old }
{
    answers::numbers_of(narrow(sheet, alternative, table)).tell(number, a, b, c);
}
