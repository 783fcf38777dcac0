// The translator: from a sheet of relations to the book of rules that says the same, in lent words.
#![tactic(auto)]

ghost use Rattle.std.specs.Prelude.{◌≡◌, ◌+◌, ◌*◌, ◌<◌, ◌≤◌, length};
ghost use Rattle.answers.specs.Numbers.{numbers_of};
ghost use Rattle.words.specs.Least.{first};
ghost use Rattle.layout.specs.Layout.{count};
ghost use Rattle.listing.specs.Items.{rules_by};
ghost use Rattle.writing.specs.Whole.{Ready};
ghost use Rattle.listing.specs.Expand.{too_many};
ghost use Rattle.translator.specs.Translation.{translation, room_after};
ghost use Rattle.translator.specs.Outcome.{Passed, long_table};

use answers::{Answer, Done, Refusal};

// The first of tables 3, 4 and 5 that is too long, 6 if the whole is, or none.
#[tactic(auto, unfolding(crate::specs::Outcome::long_table))]
fn too_long(n: usize, m: usize, k: usize, words: usize) -> Option<u32>
    ensures { result ≡ long_table n m k words }
{
    if n > 1024 {
        return Some(3);
    }
    if m > 2048 {
        return Some(4);
    }
    if k > 2048 {
        return Some(5);
    }
    if words > 16384 {
        return Some(6);
    }
    None
}

// The answers after 13, for a good sheet whose choices are listed; the book is written once nothing is wrong.
fn finish(sheet: &[u32], list: &[u64], numbers: &[u32], room: &mut [u32]) -> Answer
    requires { Ready sheet.now list.now numbers.now × (Passed sheet.now × (count sheet.now 2 ≤ first too_many (rules_by sheet.now))) }
    ensures { (numbers_of result ≡ translation sheet.now (length room.old)) × (room.new ≡ room_after sheet.now room.old) }
{
    let n = list.len();
    let all = writing::count_all(sheet, list);
    let m = all.names;
    let k = all.atoms;
    let words = words::number_at(sheet, 9) + 4 * n + 2 * m + 6 * k;
    if let Some(table) = too_long(n, m, k, words) {
        return Err(Refusal::TooLong { table });
    }
    if room.len() < words {
        return Err(Refusal::RoomTooShort {
            words: words as u32,
        });
    }
    writing::put_book(sheet, list, numbers, m, k, room);
    Ok(Done {
        a: words as u32,
        b: n as u32,
    })
}

// Translates a sheet into the book that says the same, at the start of the lent room, and answers what is wrong or how many
// words and alternatives the book has. Refused, the room is untouched.
pub fn translate(sheet: &[u32], room: &mut [u32]) -> Answer
    ensures { (numbers_of result ≡ translation sheet.now (length room.old)) × (room.new ≡ room_after sheet.now room.old) }
{
    book::check(sheet, 2)?;
    let mut items: [u64; 4097] = [0; 4097];
    let mut numbers: [u32; 64] = [0; 64];
    let rules = words::number_at(sheet, 6);
    match listing::list_rules(sheet, &mut items, &mut numbers) {
        Ok(n) => finish(sheet, &items[..n], &numbers[..rules], room),
        Err(rule) => Err(Refusal::TooManyAlternatives { rule: rule as u32 }),
    }
}
