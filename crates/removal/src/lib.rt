// Taking rules out of a lent book: all tables, and the list of desks, are closed up in place.
#![tactic(auto)]

ghost use Rattle.std.specs.Prelude.{◌≡◌, ◌≤◌, ◌<◌, true, map, length};
ghost use Rattle.answers.specs.Numbers.{numbers_of};
ghost use Rattle.words.specs.Words.{word};
ghost use Rattle.words.specs.Write.{Wrote};
ghost use Rattle.closing.specs.Rebuilt.{rebuilt};
ghost use Rattle.closing.specs.Left.{rule_in, Fitting};
ghost use Rattle.removal.specs.Removed.{in_front};
ghost use Rattle.removal.specs.Removal.{rising, removal, book_after, desks_after};
ghost use Rattle.removal.specs.Left.{left_from, Climbs, Right, ClosedUp};

use answers::{Answer, Done, Refusal};
use words::{number_at, word_at};

// ---- the list of numbers

// Whether the list is strictly increasing, with each number below n. The order is asked together with the bound: a list, however long it is, is
// left at its first two numbers that don't rise or pass n.
fn rises(list: &[u32], n: usize) -> bool
    ensures { result ≡ rising 0 n list.now }
{
    list.is_sorted_by(|a, b| (*a < *b) & ((*b as usize) < n))
        && list.iter().all(|x| (*x as usize) < n)
}

// Lists the numbers of the rules that are kept, of n, and answers how many they are. The list is a lent array with a length beside it, since the
// library's memory is fixed.
fn list_left(list: &[u32], n: usize, left: &mut [u32; 64]) -> usize
    requires { n ≤ 64 }
    ensures { Wrote left.old left.new 0 result (left_from list.now n 0) }
{
    let mut at = 0;
    for i in 0..n {
        let rule = i as u32;
        if !list.contains(&rule) {
            left[at] = rule;
            at += 1;
        }
    }
    at
}

// ---- the lent words

// Closes the lent book up to the rules of these numbers, and answers where it ends. What says where words stand may be overwritten before they
// are moved, so they are read from a copy.
fn close_book(book: &mut [u32], left: &[u32]) -> usize
    requires { Fitting book.old left.now }
    ensures { Wrote book.old book.new 0 result (rebuilt book.old (map (rule_in book.old) left.now)) }
{
    let n = book.len();
    let mut old: [u32; 16384] = [0; 16384];
    words::put_words(book, 0, n, &mut old, 0);
    closing::put_book(&old[..n], left, book)
}

// Puts the words of the rules of these numbers, of the list of desks, at its start.
fn close_desks(desks: &mut [u32], left: &[u32])
    requires { Climbs left.now × (length left.now ≤ length desks.old) }
    ensures { desks.new ≡ in_front (map (word desks.old) left.now) desks.old }
{
    for (i, x) in left.iter().enumerate() {
        desks[i] = word_at(desks, *x as usize);
    }
}

// Closes the lent book and the list of desks up to the rules, of n, that aren't listed.
fn close_up(book: &mut [u32], desks: &mut [u32], list: &[u32], n: usize) -> Answer
    requires { Right book.old desks.old list.now n }
    ensures { ClosedUp book.old desks.old list.now (numbers_of result) book.new desks.new }
{
    let mut left: [u32; 64] = [0; 64];
    let m = list_left(list, n, &mut left);
    let end = close_book(book, &left[..m]);
    close_desks(desks, &left[..m]);
    Ok(Done {
        a: end as u32,
        b: m as u32,
    })
}

// Takes the rules whose numbers are listed out of the lent book, with their alternatives, names and atoms, and out of the list of desks. Answers
// what is wrong, or the book's new words and its new rule count. What stands past either new end stays; refused, both are untouched.
pub fn remove_rules(book: &mut [u32], desks: &mut [u32], list: &[u32]) -> Answer
    ensures result_value { numbers_of result ≡ removal book.old desks.old list.now }
    ensures book_after { book.new ≡ book_after book.old desks.old list.now }
    ensures desks_after { desks.new ≡ desks_after book.old desks.old list.now }
{
    book::check(book, 1)?;
    if !desks::list_right(book, desks) {
        return Err(Refusal::NoSuchDesk);
    }
    let n = number_at(book, 6);
    if !rises(list, n) {
        return Err(Refusal::NoSuchRules);
    }
    close_up(book, desks, list, n)
}
