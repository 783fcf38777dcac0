// Writes a plan as events in time order, into lent words.
#![tactic(auto)]

ghost use Rattle.std.specs.Prelude.{◌≡◌, length};
ghost use Rattle.answers.specs.Numbers.{numbers_of};
ghost use Rattle.event_list.specs.Answers.{write_fault, written_events, written_room};

use answers::{Answer, Done, Refusal};

// What is wrong with the book or the plan, the rules aside: the first of answers 1 to 11 and 18 that fits, or no fault.
fn check(book: &[u32], plan: &[u32]) -> Answer
    ensures { numbers_of result ≡ write_fault book.now plan.now }
{
    book::check(book, 1)?;
    plan::check(book, plan)
}

// Writes the list of a plan's events at the start of the lent room, and answers what is wrong or how many words the list has.
// Refused, the room is untouched.
pub fn write_events(book: &[u32], plan: &[u32], room: &mut [u32]) -> Answer
    ensures { (numbers_of result ≡ written_events book.now plan.now (length room.old)) × (room.new ≡ written_room book.now plan.now room.old) }
{
    check(book, plan)?;
    let n = words::word_at(plan, 2);
    let size = listed::size_of(plan, n);
    let words = size.at;
    if room.len() < words {
        return Err(Refusal::EventRoomTooShort {
            words: words as u32,
        });
    }
    let none = [0u32; 1];
    listed::send_list(&none, room, plan, n, size);
    Ok(Done {
        a: words as u32,
        b: 0,
    })
}
