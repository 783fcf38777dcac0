// The C side of writing events: a book and a plan as bytes and a lent room in, the answer's numbers out, one by one.
#![tactic(auto)]

ghost use Rattle.std.specs.Prelude.{◌≡◌, length};
ghost use Rattle.answers.specs.Numbers.{numbers_of};
ghost use Rattle.words.specs.Bytes.{file_words};
ghost use Rattle.event_list.specs.Answers.{written_events, written_room};

use answers::Answer;

// Writes the list of a plan's events into a lent room.
pub fn write_events(book: &[u8], plan: &[u8], room: &mut [u32]) -> Answer
    ensures { (numbers_of result ≡ written_events (file_words book.now) (file_words plan.now) (length room.old)) × (room.new ≡ written_room (file_words book.now) (file_words plan.now) room.old) }
{
    let mut b = [0u32; 16384];
    let mut p = [0u32; 16384];
    let book = words::loaded(book, &mut b);
    let plan = words::loaded(plan, &mut p);
    events_written::write_events(book, plan, room)
}

// For C: a plan as events, into a lent room.
#[unsafe(no_mangle)]
pub extern "C" fn tteokbiran_write_events(
    book: &[u8],
    plan: &[u8],
    room: &mut [u32],
    number: &mut u32,
    a: &mut u32,
    b: &mut u32,
    c: &mut u32,
)
    ensures number_after { number.new ≡ (written_events (file_words book.now) (file_words plan.now) (length room.old)).number }
    ensures a_after { a.new ≡ (written_events (file_words book.now) (file_words plan.now) (length room.old)).a }
    ensures b_after { b.new ≡ (written_events (file_words book.now) (file_words plan.now) (length room.old)).b }
    ensures c_after { c.new ≡ (written_events (file_words book.now) (file_words plan.now) (length room.old)).c }
    ensures room_after { room.new ≡ written_room (file_words book.now) (file_words plan.now) room.old }
{
    answers::numbers_of(write_events(book, plan, room)).tell(number, a, b, c);
}
