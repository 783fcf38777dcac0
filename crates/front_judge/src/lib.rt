// The C side of the judges and the translator: files as bytes in, the answer's numbers out, one by one.
#![tactic(auto)]

ghost use Rattle.std.specs.Prelude.{◌≡◌, length};
ghost use Rattle.words.specs.Bytes.{file_words};
ghost use Rattle.verdict.specs.Judged.{judged, judged_sheet};
ghost use Rattle.translator.specs.Translation.{translation, room_after};

// For C: the judge of a book and a plan.
#[unsafe(no_mangle)]
pub extern "C" fn tteokbiran_judge(
    book: &[u8],
    plan: &[u8],
    number: &mut u32,
    a: &mut u32,
    b: &mut u32,
    c: &mut u32,
)
    ensures number_after { number.new ≡ (judged (file_words book.now) (file_words plan.now)).number }
    ensures a_after { a.new ≡ (judged (file_words book.now) (file_words plan.now)).a }
    ensures b_after { b.new ≡ (judged (file_words book.now) (file_words plan.now)).b }
    ensures c_after { c.new ≡ (judged (file_words book.now) (file_words plan.now)).c }
{
    answers::numbers_of(front::judge(book, plan)).tell(number, a, b, c);
}

// For C: the direct judge of a sheet and a plan.
#[unsafe(no_mangle)]
pub extern "C" fn tteokbiran_judge_sheet(
    sheet: &[u8],
    plan: &[u8],
    number: &mut u32,
    a: &mut u32,
    b: &mut u32,
    c: &mut u32,
)
    ensures number_after { number.new ≡ (judged_sheet (file_words sheet.now) (file_words plan.now)).number }
    ensures a_after { a.new ≡ (judged_sheet (file_words sheet.now) (file_words plan.now)).a }
    ensures b_after { b.new ≡ (judged_sheet (file_words sheet.now) (file_words plan.now)).b }
    ensures c_after { c.new ≡ (judged_sheet (file_words sheet.now) (file_words plan.now)).c }
{
    answers::numbers_of(front::judge_sheet(sheet, plan)).tell(number, a, b, c);
}

// For C: the translator, into lent words.
#[unsafe(no_mangle)]
pub extern "C" fn tteokbiran_translate(
    sheet: &[u8],
    room: &mut [u32],
    number: &mut u32,
    a: &mut u32,
    b: &mut u32,
    c: &mut u32,
)
    ensures number_after { number.new ≡ (translation (file_words sheet.now) (length room.old)).number }
    ensures a_after { a.new ≡ (translation (file_words sheet.now) (length room.old)).a }
    ensures b_after { b.new ≡ (translation (file_words sheet.now) (length room.old)).b }
    ensures c_after { c.new ≡ (translation (file_words sheet.now) (length room.old)).c }
    ensures room_after { room.new ≡ room_after (file_words sheet.now) room.old }
{
    answers::numbers_of(front::translate(sheet, room)).tell(number, a, b, c);
}
