// Allen's thirteen relations: which one holds of two stretches of time.
#![tactic(auto)]

ghost use Rattle.std.specs.Prelude.{◌≡◌, ◌≤◌};
ghost use Rattle.allen.specs.Relation.{relation_of};
ghost use Rattle.allen.specs.Order.{order_of, Across};

use std::cmp::Ordering::{Equal, Greater, Less};

// The relations that are told by name here; `across` computes the numbers of the others.
const BEFORE: u32 = 0;

const MEETS: u32 = 1;

const OVERLAPPED_BY: u32 = 10;

const MET_BY: u32 = 11;

const AFTER: u32 = 12;

// The three-way order of two ends as a number, to reckon with: a match on the orders of both pairs was slower by measure.
fn order(a: u64, b: u64) -> u32
    ensures { (result ≡ order_of a b) × (result ≤ 2) }
{
    match a.cmp(&b) {
        Less => 0,
        Equal => 1,
        Greater => 2,
    }
}

// The relation of two stretches of which left ends after right starts: by the order of their starts and that of their ends, and
// where left is the later in both, by that of right's end and left's start.
fn across(s: u64, e: u64, s2: u64, e2: u64) -> u32
    ensures { Across s e s2 e2 result }
{
    let starts = order(s, s2);
    let ends = order(e, e2);
    if starts + ends == 4 {
        return AFTER - order(e2, s);
    }
    2 + 3 * starts + ends
}

// The relation in which the stretch from s to e stands to that from s2 to e2. What 10 and 11 are found by says that left ends
// after right starts; for the others the order of these two is asked, which finds 0 and 1.
pub fn relation(s: u64, e: u64, s2: u64, e2: u64) -> u32
    ensures { result ≡ relation_of s e s2 e2 }
{
    let k = across(s, e, s2, e2);
    if (k == OVERLAPPED_BY) | (k == MET_BY) {
        return k;
    }
    match e.cmp(&s2) {
        Less => BEFORE,
        Equal => MEETS,
        Greater => k,
    }
}
