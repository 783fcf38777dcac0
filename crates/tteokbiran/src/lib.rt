// The library for C: the exported functions, each with the clauses of the function that it calls. A crate is a library or a static
// library, not both: so each function stands in a front crate, for the crates above it, and here once more, and passes on to it. The
// numbers go out one by one: the C interface has them so.
#![tactic(auto)]

ghost use Rattle.std.specs.Prelude.{◌≡◌, length};
ghost use Rattle.words.specs.Bytes.{file_words};
ghost use Rattle.verdict.specs.Judged.{judged, judged_sheet};
ghost use Rattle.translator.specs.Translation.{translation, room_after};
ghost use Rattle.lines.specs.Walk.{position, names, step_of};
ghost use Rattle.reader.specs.Opening.{open_fault, open_at};
ghost use Rattle.front_reader.specs.Stepped.{Stepped};
ghost use Rattle.desks.specs.Own.{judged_desk};
ghost use Rattle.removal.specs.Removal.{removal, book_after, desks_after};
ghost use Rattle.order.specs.Profile.{order_only};
ghost use Rattle.order.specs.Judged.{judged_by_order};
ghost use Rattle.event_list.specs.Answers.{written_events, written_room, read_events, read_room};
ghost use Rattle.narrowing.specs.Sheet.{narrowing, table_after};
ghost use Rattle.answers.specs.Numbers.{numbers_at};
ghost use Rattle.earliest.specs.Times.{Told};

// For C: the judge of a book and a plan.
#[unsafe(no_mangle)]
pub extern "C" fn tteokbiran_judge(
    book: &[u8],
    plan: &[u8],
    number: &mut u32,
    a: &mut u32,
    b: &mut u32,
    c: &mut u32,
)
    ensures number_after { number.new ≡ (judged (file_words book.now) (file_words plan.now)).number }
    ensures a_after { a.new ≡ (judged (file_words book.now) (file_words plan.now)).a }
    ensures b_after { b.new ≡ (judged (file_words book.now) (file_words plan.now)).b }
    ensures c_after { c.new ≡ (judged (file_words book.now) (file_words plan.now)).c }
{
    front_judge::tteokbiran_judge(book, plan, number, a, b, c)
}

// For C: the direct judge of a sheet and a plan.
#[unsafe(no_mangle)]
pub extern "C" fn tteokbiran_judge_sheet(
    sheet: &[u8],
    plan: &[u8],
    number: &mut u32,
    a: &mut u32,
    b: &mut u32,
    c: &mut u32,
)
    ensures number_after { number.new ≡ (judged_sheet (file_words sheet.now) (file_words plan.now)).number }
    ensures a_after { a.new ≡ (judged_sheet (file_words sheet.now) (file_words plan.now)).a }
    ensures b_after { b.new ≡ (judged_sheet (file_words sheet.now) (file_words plan.now)).b }
    ensures c_after { c.new ≡ (judged_sheet (file_words sheet.now) (file_words plan.now)).c }
{
    front_judge::tteokbiran_judge_sheet(sheet, plan, number, a, b, c)
}

// For C: the translator, into lent words.
#[unsafe(no_mangle)]
pub extern "C" fn tteokbiran_translate(
    sheet: &[u8],
    room: &mut [u32],
    number: &mut u32,
    a: &mut u32,
    b: &mut u32,
    c: &mut u32,
)
    ensures number_after { number.new ≡ (translation (file_words sheet.now) (length room.old)).number }
    ensures a_after { a.new ≡ (translation (file_words sheet.now) (length room.old)).a }
    ensures b_after { b.new ≡ (translation (file_words sheet.now) (length room.old)).b }
    ensures c_after { c.new ≡ (translation (file_words sheet.now) (length room.old)).c }
    ensures room_after { room.new ≡ room_after (file_words sheet.now) room.old }
{
    front_judge::tteokbiran_translate(sheet, room, number, a, b, c)
}

// For C: opens a reader over one timeline of a plan, in lent words.
#[unsafe(no_mangle)]
pub extern "C" fn tteokbiran_open(
    book: &[u32],
    plan: &[u32],
    line: u32,
    number: &mut u32,
    a: &mut u32,
    b: &mut u32,
    c: &mut u32,
    token: &mut u32,
)
    ensures number_after { number.new ≡ (open_fault book.now plan.now line).number }
    ensures a_after { a.new ≡ (open_fault book.now plan.now line).a }
    ensures b_after { b.new ≡ (open_fault book.now plan.now line).b }
    ensures c_after { c.new ≡ (open_fault book.now plan.now line).c }
    ensures token_after { token.new ≡ (open_at book.now plan.now line).token }
{
    front_reader::tteokbiran_open(book, plan, line, number, a, b, c, token)
}

// For C: a step on a timeline of lent words. Whether a token was handed out; then its value, end and job are there, and token and
// start are the next position's. Else nothing is changed.
#[unsafe(no_mangle)]
pub extern "C" fn tteokbiran_step(
    plan: &[u32],
    line: u32,
    token: &mut u32,
    start: &mut u64,
    value: &mut u32,
    end: &mut u64,
    job: &mut u32,
) -> bool
    ensures value { result ≡ names plan.now (position line token.old start.old) }
    ensures stepped { Stepped (step_of plan.now (position line token.old start.old)) token.old start.old value.old end.old job.old token.new start.new value.new end.new job.new }
{
    front_reader::tteokbiran_step(plan, line, token, start, value, end, job)
}

// For C: a desk's own judgement.
#[unsafe(no_mangle)]
pub extern "C" fn tteokbiran_judge_desk(
    book: &[u8],
    plan: &[u8],
    desks: &[u32],
    desk: u32,
    number: &mut u32,
    a: &mut u32,
    b: &mut u32,
    c: &mut u32,
)
    ensures number_after { number.new ≡ (judged_desk (file_words book.now) (file_words plan.now) desks.now desk).number }
    ensures a_after { a.new ≡ (judged_desk (file_words book.now) (file_words plan.now) desks.now desk).a }
    ensures b_after { b.new ≡ (judged_desk (file_words book.now) (file_words plan.now) desks.now desk).b }
    ensures c_after { c.new ≡ (judged_desk (file_words book.now) (file_words plan.now) desks.now desk).c }
{
    front_desks::tteokbiran_judge_desk(book, plan, desks, desk, number, a, b, c)
}

// For C: rules taken out of a lent book and out of its list of desks.
#[unsafe(no_mangle)]
pub extern "C" fn tteokbiran_remove_rules(
    book: &mut [u32],
    desks: &mut [u32],
    list: &[u32],
    number: &mut u32,
    a: &mut u32,
    b: &mut u32,
    c: &mut u32,
)
    ensures number_after { number.new ≡ (removal book.old desks.old list.now).number }
    ensures a_after { a.new ≡ (removal book.old desks.old list.now).a }
    ensures b_after { b.new ≡ (removal book.old desks.old list.now).b }
    ensures c_after { c.new ≡ (removal book.old desks.old list.now).c }
    ensures book_after { book.new ≡ book_after book.old desks.old list.now }
    ensures desks_after { desks.new ≡ desks_after book.old desks.old list.now }
{
    front_removal::tteokbiran_remove_rules(book, desks, list, number, a, b, c)
}

// For C: whether a book speaks only of order.
#[unsafe(no_mangle)]
pub extern "C" fn tteokbiran_order_only(book: &[u8]) -> bool
    ensures { result ≡ order_only (file_words book.now) }
{
    front_order::tteokbiran_order_only(book)
}

// For C: the judge by ranks.
#[unsafe(no_mangle)]
pub extern "C" fn tteokbiran_judge_by_order(
    book: &[u8],
    plan: &[u8],
    number: &mut u32,
    a: &mut u32,
    b: &mut u32,
    c: &mut u32,
)
    ensures number_after { number.new ≡ (judged_by_order (file_words book.now) (file_words plan.now)).number }
    ensures a_after { a.new ≡ (judged_by_order (file_words book.now) (file_words plan.now)).a }
    ensures b_after { b.new ≡ (judged_by_order (file_words book.now) (file_words plan.now)).b }
    ensures c_after { c.new ≡ (judged_by_order (file_words book.now) (file_words plan.now)).c }
{
    front_order::tteokbiran_judge_by_order(book, plan, number, a, b, c)
}

// For C: a plan as events, into a lent room.
#[unsafe(no_mangle)]
pub extern "C" fn tteokbiran_write_events(
    book: &[u8],
    plan: &[u8],
    room: &mut [u32],
    number: &mut u32,
    a: &mut u32,
    b: &mut u32,
    c: &mut u32,
)
    ensures number_after { number.new ≡ (written_events (file_words book.now) (file_words plan.now) (length room.old)).number }
    ensures a_after { a.new ≡ (written_events (file_words book.now) (file_words plan.now) (length room.old)).a }
    ensures b_after { b.new ≡ (written_events (file_words book.now) (file_words plan.now) (length room.old)).b }
    ensures c_after { c.new ≡ (written_events (file_words book.now) (file_words plan.now) (length room.old)).c }
    ensures room_after { room.new ≡ written_room (file_words book.now) (file_words plan.now) room.old }
{
    front_written::tteokbiran_write_events(book, plan, room, number, a, b, c)
}

// For C: a list of events back into a plan, in a lent room.
#[unsafe(no_mangle)]
pub extern "C" fn tteokbiran_read_events(
    book: &[u8],
    list: &[u32],
    room: &mut [u32],
    number: &mut u32,
    a: &mut u32,
    b: &mut u32,
    c: &mut u32,
)
    ensures number_after { number.new ≡ (read_events (file_words book.now) list.now (length room.old)).number }
    ensures a_after { a.new ≡ (read_events (file_words book.now) list.now (length room.old)).a }
    ensures b_after { b.new ≡ (read_events (file_words book.now) list.now (length room.old)).b }
    ensures c_after { c.new ≡ (read_events (file_words book.now) list.now (length room.old)).c }
    ensures room_after { room.new ≡ read_room (file_words book.now) list.now room.old }
{
    front_read::tteokbiran_read_events(book, list, room, number, a, b, c)
}

// For C: narrowing, into a lent table.
#[unsafe(no_mangle)]
pub extern "C" fn tteokbiran_narrow(
    sheet: &[u8],
    alternative: u32,
    table: &mut [u32],
    number: &mut u32,
    a: &mut u32,
    b: &mut u32,
    c: &mut u32,
)
    ensures number_after { number.new ≡ (narrowing (file_words sheet.now) alternative (length table.old)).number }
    ensures a_after { a.new ≡ (narrowing (file_words sheet.now) alternative (length table.old)).a }
    ensures b_after { b.new ≡ (narrowing (file_words sheet.now) alternative (length table.old)).b }
    ensures c_after { c.new ≡ (narrowing (file_words sheet.now) alternative (length table.old)).c }
    ensures table_after { table.new ≡ table_after (file_words sheet.now) alternative table.old }
{
    front_narrow::tteokbiran_narrow(sheet, alternative, table, number, a, b, c)
}

// For C: the earliest times of an alternative.
#[unsafe(no_mangle)]
pub extern "C" fn tteokbiran_earliest(
    book: &[u8],
    alternative: u32,
    times: &mut [u64],
    number: &mut u32,
    a: &mut u32,
    b: &mut u32,
    c: &mut u32,
)
    ensures { Told (file_words book.now) alternative (numbers_at number.new a.new b.new c.new) times.old times.new }
{
    front_earliest::tteokbiran_earliest(book, alternative, times, number, a, b, c)
}
