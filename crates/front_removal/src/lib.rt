// The C side of taking rules out of the book: the lent words in, the answer's numbers out, one by one.
#![tactic(auto)]

ghost use Rattle.std.specs.Prelude.{◌≡◌};
ghost use Rattle.removal.specs.Removal.{removal, book_after, desks_after};

// For C: rules taken out of a lent book and out of its list of desks.
#[unsafe(no_mangle)]
pub extern "C" fn tteokbiran_remove_rules(
    book: &mut [u32],
    desks: &mut [u32],
    list: &[u32],
    number: &mut u32,
    a: &mut u32,
    b: &mut u32,
    c: &mut u32,
)
    ensures number_after { number.new ≡ (removal book.old desks.old list.now).number }
    ensures a_after { a.new ≡ (removal book.old desks.old list.now).a }
    ensures b_after { b.new ≡ (removal book.old desks.old list.now).b }
    ensures c_after { c.new ≡ (removal book.old desks.old list.now).c }
    ensures book_after { book.new ≡ book_after book.old desks.old list.now }
    ensures desks_after { desks.new ≡ desks_after book.old desks.old list.now }
{
    answers::numbers_of(removal::remove_rules(book, desks, list)).tell(number, a, b, c);
}
