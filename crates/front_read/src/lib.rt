// The C side of reading events: a book as bytes, a list as words and a lent room in, the answer's numbers out, one by one.
#![tactic(auto)]

ghost use Rattle.std.specs.Prelude.{◌≡◌, length};
ghost use Rattle.answers.specs.Numbers.{numbers_of};
ghost use Rattle.words.specs.Bytes.{file_words};
ghost use Rattle.event_list.specs.Answers.{read_events, read_room};

use answers::Answer;

// Reads a list of events, its words as they are, back into a plan in a lent room.
pub fn read_events(book: &[u8], list: &[u32], room: &mut [u32]) -> Answer
    ensures { (numbers_of result ≡ read_events (file_words book.now) list.now (length room.old)) × (room.new ≡ read_room (file_words book.now) list.now room.old) }
{
    let mut b = [0u32; 16384];
    events_read::read_events(words::loaded(book, &mut b), list, room)
}

// For C: a list of events back into a plan, in a lent room.
#[unsafe(no_mangle)]
pub extern "C" fn tteokbiran_read_events(
    book: &[u8],
    list: &[u32],
    room: &mut [u32],
    number: &mut u32,
    a: &mut u32,
    b: &mut u32,
    c: &mut u32,
)
    ensures number_after { number.new ≡ (read_events (file_words book.now) list.now (length room.old)).number }
    ensures a_after { a.new ≡ (read_events (file_words book.now) list.now (length room.old)).a }
    ensures b_after { b.new ≡ (read_events (file_words book.now) list.now (length room.old)).b }
    ensures c_after { c.new ≡ (read_events (file_words book.now) list.now (length room.old)).c }
    ensures room_after { room.new ≡ read_room (file_words book.now) list.now room.old }
{
    answers::numbers_of(read_events(book, list, room)).tell(number, a, b, c);
}
