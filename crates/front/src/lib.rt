// Files as bytes in, the answer out.
#![tactic(auto)]

ghost use Rattle.std.specs.Prelude.{◌≡◌, length};
ghost use Rattle.answers.specs.Numbers.{numbers_of};
ghost use Rattle.words.specs.Bytes.{file_words};
ghost use Rattle.verdict.specs.Judged.{judged, judged_sheet};
ghost use Rattle.translator.specs.Translation.{translation, room_after};

use answers::Answer;

// The answer for the bytes of a book and a plan. A file that is too long, or no multiple of 4, is no words.
pub fn judge(book: &[u8], plan: &[u8]) -> Answer
    ensures { numbers_of result ≡ judged (file_words book.now) (file_words plan.now) }
{
    let mut b = [0u32; 16384];
    let mut p = [0u32; 16384];
    verdict::judge(words::loaded(book, &mut b), words::loaded(plan, &mut p))
}

// The answer for the bytes of a sheet, read directly, and a plan.
pub fn judge_sheet(sheet: &[u8], plan: &[u8]) -> Answer
    ensures { numbers_of result ≡ judged_sheet (file_words sheet.now) (file_words plan.now) }
{
    let mut s = [0u32; 16384];
    let mut q = [0u32; 16384];
    verdict::judge_sheet(words::loaded(sheet, &mut s), words::loaded(plan, &mut q))
}

// The translation of a sheet's bytes into lent words.
pub fn translate(sheet: &[u8], room: &mut [u32]) -> Answer
    ensures { (numbers_of result ≡ translation (file_words sheet.now) (length room.old)) × (room.new ≡ room_after (file_words sheet.now) room.old) }
{
    let mut s = [0u32; 16384];
    translator::translate(words::loaded(sheet, &mut s), room)
}
