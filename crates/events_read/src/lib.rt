// Reads a list of events back into the plan that it was written from, in lent words.
#![tactic(auto)]

ghost use Rattle.std.specs.Prelude.{◌≡◌, length};
ghost use Rattle.answers.specs.Numbers.{numbers_of};
ghost use Rattle.book.specs.Fault.{book_fault};
ghost use Rattle.event_list.specs.Reading.{plan_from};
ghost use Rattle.event_list.specs.Answers.{could_be_written, read_events, read_room};
ghost use Rattle.events_read.specs.Found.{Finds};

use answers::{Answer, Done, Refusal};

// No list that is written has more words, and no plan.
const LONGEST_LIST: usize = 65536;

const LONGEST_PLAN: usize = 16384;

// Whether the plan that a list gives passes and, written again, is the list.
fn made(book: &[u32], list: &[u32], plan: &[u32]) -> bool
    requires { ((book_fault 1 book.now).number ≡ 0) × (plan.now ≡ plan_from book.now list.now) }
    ensures { result ≡ could_be_written book.now list.now }
{
    if plan::check(book, plan).is_err() {
        return false;
    }
    let n = words::word_at(plan, 2);
    let size = listed::size_of(plan, n);
    let mut none = [0u32; 1];
    let sent = listed::send_list(list, &mut none, plan, n, size);
    sent.same & (sent.at == list.len())
}

// Puts the plan that a list gives into `plan`, and answers how many words it has, or none where the writer couldn't have made the list.
fn find(book: &[u32], list: &[u32], plan: &mut [u32]) -> Option<usize>
    requires { ((book_fault 1 book.now).number ≡ 0) × (length plan.old ≡ 16384) }
    ensures { Finds book.now list.now plan.new result }
{
    if list.len() > LONGEST_LIST {
        return None;
    }
    let n = words::word_at(book, 2);
    let words = reading::put_plan(list, n, plan);
    if words > LONGEST_PLAN {
        return None;
    }
    made(book, list, &plan[..words]).then_some(words)
}

// Reads the plan of a list into the start of the lent room, and answers what is wrong or how many words the plan has. Refused, the
// room is untouched.
pub fn read_events(book: &[u32], list: &[u32], room: &mut [u32]) -> Answer
    ensures { (numbers_of result ≡ read_events book.now list.now (length room.old)) × (room.new ≡ read_room book.now list.now room.old) }
{
    book::check(book, 1)?;
    let mut plan = [0u32; LONGEST_PLAN];
    let Some(words) = find(book, list, &mut plan) else {
        return Err(Refusal::NotAnEventList);
    };
    if room.len() < words {
        return Err(Refusal::EventRoomTooShort {
            words: words as u32,
        });
    }
    words::put_words(&plan, 0, words, room, 0);
    Ok(Done {
        a: words as u32,
        b: 0,
    })
}
