// Which word of a record of a book or a sheet is wrong: the tests of its words, each given the words before it and the tables before.
// The record is given with its place, which lies in the book, and with its owners where its words are tested against them.
#![tactic(auto)]

ghost use Rattle.std.specs.Prelude.{◌≡◌, ◌||◌, ◌+◌, ◌*◌, ◌<◌, ◌≤◌, ◌^◌, ltb, length};
ghost use Rattle.words.specs.Least.{first};
ghost use Rattle.words.specs.Words.{word};
ghost use Rattle.layout.specs.Layout.{offset, owner};
ghost use Rattle.layout.specs.Owner.{Place};
ghost use Rattle.records.specs.Wrong.{lower_wrong, upper_wrong, set_wrong, trigger_variable_wrong, trigger_value_wrong, token_wrong, right_kind_wrong, argument_wrong, job_bound_wrong, atom_tests, constraint_tests, wrong_word};

use clock::Time;
use layout::{Tables, fifth_most, read};
use words::number_at;

// The time's marks, to be held against words.
const LAST_TICK: usize = Time::LAST_TICK as usize;

const NO_LIMIT: usize = Time::NO_LIMIT as usize;

// ---- tests of words

// Whether a range has not lo..hi records, or runs past the n that there are.
fn number_wrong(first: usize, number: usize, lo: usize, hi: usize, n: usize) -> bool
    requires { (first < 2 ^ 32) × (number < 2 ^ 32) }
    ensures { result ≡ ((ltb number lo || ltb hi number) || ltb n (first + number)) }
{
    number < lo || number > hi || first + number > n
}

// Whether x, the lower of two bounds, is not lo..1,000,000,000.
fn lower_wrong(lo: usize, x: usize) -> bool
    ensures { result ≡ lower_wrong lo x }
{
    x < lo || x > LAST_TICK
}

// Whether y, the upper of two bounds, is not from the lower x to 1,000,000,000, nor the mark for no limit.
fn upper_wrong(x: usize, y: usize) -> bool
    ensures { result ≡ upper_wrong x y }
{
    y < x || (y > LAST_TICK && y != NO_LIMIT)
}

// Whether a set has a bit at or above n; a word has none from 32 on.
fn set_wrong(set: usize, n: usize) -> bool
    requires { set < 2 ^ 32 }
    ensures { result ≡ set_wrong set n }
{
    n < 32 && (1 << n) <= set
}

// How many values variable v has. Any word may stand for v: past the end it has none.
fn values_of(tables: Tables, v: usize) -> usize
    requires { v < 2 ^ 32 }
    ensures { result ≡ word tables.entry.words.now (offset tables.entry.words.now 0 + v * 2 + 1) }
{
    number_at(tables.words, tables.offset_of(0) + v * 2 + 1)
}

// Whether v is no trigger variable: it is there, or the mark for no trigger.
fn trigger_variable_wrong(tables: Tables, v: usize) -> bool
    ensures { result ≡ trigger_variable_wrong tables.entry.words.now v }
{
    v != NO_LIMIT && v >= tables.count_of(0)
}

// Whether x is no trigger value, given the trigger variable v: 0 where there is no trigger, and else a value of v.
fn trigger_value_wrong(tables: Tables, v: usize, x: usize) -> bool
    requires { v < 2 ^ 32 }
    ensures { result ≡ trigger_value_wrong tables.entry.edition tables.entry.words.now v x }
{
    if v == NO_LIMIT {
        x != 0
    } else {
        x >= values_of(tables, v)
    }
}

// Whether x names no token of an alternative with n names: 0 is the trigger, which has to be there.
fn token_wrong(n: usize, trigger: bool, x: usize) -> bool
    ensures { result ≡ token_wrong n trigger x }
{
    x > n || (x == 0 && !trigger)
}

// Whether the right kind of an atom is none, given the left one: jobs stand on both sides or on neither.
fn right_kind_wrong(left: usize, right: usize) -> bool
    ensures { result ≡ right_kind_wrong left right }
{
    right > 4 || (left == 4) != (right == 4)
}

// Whether x is no bound of an atom of jobs, given its left kind.
fn job_bound_wrong(left: usize, x: usize) -> bool
    ensures { result ≡ job_bound_wrong left x }
{
    left == 4 && x != 0
}

// Whether x is no argument for a term of this kind: a time point, 0 for the end of the plan, or a token. The kind is a word of the book that
// may be any number (`argument_wrong` is said of every one), so it is no enum.
fn argument_wrong(n: usize, trigger: bool, kind: usize, x: usize) -> bool
    ensures { result ≡ argument_wrong n trigger kind x }
{
    match kind {
        0 | 1 | 4 => token_wrong(n, trigger, x),
        2 => x > LAST_TICK,
        3 => x != 0,
        _ => false,
    }
}

// ---- the first wrong word of a record, at its place: one test for each word in turn

// The first of the tests that holds, or how many they are.
fn first_wrong(tests: &[bool]) -> usize
    ensures { (result ≡ first (λ w. w) tests.now) × (result ≤ length tests.now) }
{
    tests.iter().position(|wrong| *wrong).unwrap_or(tests.len())
}

// The first wrong word of record i of table 0, or its width.
#[tactic(auto, unfolding(crate::specs::Wrong::wrong_word))]
fn variable_word(tables: Tables, i: usize, at: usize) -> usize
    requires { Place tables.edition tables.words.now 0 i at }
    ensures { (result ≡ wrong_word tables.entry.edition tables.entry.words.now 0 i) × (result < 8) }
{
    let first = read(tables.words, at);
    let number = read(tables.words, at + 1);
    first_wrong(&[
        first != tables.starts_of(0, 0, i, at),
        number_wrong(first, number, 1, 32, tables.count_of(1)),
    ])
}

// The first wrong word of record i of table 1, or its width; v is its variable.
#[tactic(auto, unfolding(crate::specs::Wrong::wrong_word, crate::specs::Wrong::value_tests))]
pub fn value_word(tables: Tables, i: usize, at: usize, v: usize) -> usize
    requires { Place tables.edition tables.words.now 1 i at × (v < 2 ^ 32) × (v ≡ owner tables.edition tables.words.now 0 0 i) }
    ensures { (result ≡ wrong_word tables.entry.edition tables.entry.words.now 1 i) × (result < 8) }
{
    let least = read(tables.words, at);
    let greatest = read(tables.words, at + 1);
    let set = read(tables.words, at + 2);
    let n = values_of(tables, v);
    first_wrong(&[
        lower_wrong(1, least),
        upper_wrong(least, greatest),
        set_wrong(set, n),
    ])
}

// The first wrong word of record i of table 2, or its width.
fn rule_word(tables: Tables, i: usize, at: usize) -> usize
    requires { Place tables.edition tables.words.now 2 i at }
    ensures { (result ≡ wrong_word tables.entry.edition tables.entry.words.now 2 i) × (result < 8) }
{
    let v = read(tables.words, at);
    let x = read(tables.words, at + 1);
    let first = read(tables.words, at + 2);
    let number = read(tables.words, at + 3);
    first_wrong(&[
        trigger_variable_wrong(tables, v),
        trigger_value_wrong(tables, v, x),
        first != tables.starts_of(2, 2, i, at),
        number_wrong(first, number, 1, 64, tables.count_of(3)),
    ])
}

// The first wrong word of record i of table 3, or its width.
#[tactic(auto, unfolding(crate::specs::Wrong::wrong_word))]
fn alternative_word(tables: Tables, i: usize, at: usize) -> usize
    requires { Place tables.edition tables.words.now 3 i at }
    ensures { (result ≡ wrong_word tables.entry.edition tables.entry.words.now 3 i) × (result < 8) }
{
    let name = read(tables.words, at);
    let names = read(tables.words, at + 1);
    let ask = read(tables.words, at + 2);
    let asks = read(tables.words, at + 3);
    first_wrong(&[
        name != tables.starts_of(3, 0, i, at),
        number_wrong(name, names, 0, 4, tables.count_of(4)),
        ask != tables.starts_of(3, 2, i, at),
        number_wrong(ask, asks, 0, fifth_most(tables.edition), tables.count_of(5)),
    ])
}

// The first wrong word of record i of table 4, or its width.
#[tactic(auto, unfolding(crate::specs::Wrong::wrong_word))]
fn name_word(tables: Tables, i: usize, at: usize) -> usize
    requires { Place tables.edition tables.words.now 4 i at }
    ensures { (result ≡ wrong_word tables.entry.edition tables.entry.words.now 4 i) × (result < 8) }
{
    let v = read(tables.words, at);
    let x = read(tables.words, at + 1);
    first_wrong(&[v >= tables.count_of(0), x >= values_of(tables, v)])
}

// The first wrong word of an atom, or its width, in an alternative with n names, whose rule has a trigger or not.
fn atom_word(b: &[u32], at: usize, n: usize, trigger: bool) -> usize
    requires { at + 6 ≤ length b.now }
    ensures { (result ≡ first (λ w. w) (atom_tests b.now at n trigger)) × (result < 8) }
{
    let left = read(b, at);
    let right = read(b, at + 2);
    let lower = read(b, at + 4);
    let upper = read(b, at + 5);
    first_wrong(&[
        left > 4,
        argument_wrong(n, trigger, left, read(b, at + 1)),
        right_kind_wrong(left, right),
        argument_wrong(n, trigger, right, read(b, at + 3)),
        lower_wrong(0, lower) || job_bound_wrong(left, lower),
        upper_wrong(lower, upper) || job_bound_wrong(left, upper),
    ])
}

// The first wrong word of a constraint, or its width, in an alternative with n names, whose rule has a trigger or not.
fn constraint_word(b: &[u32], at: usize, n: usize, trigger: bool) -> usize
    requires { at + 3 ≤ length b.now }
    ensures { (result ≡ first (λ w. w) (constraint_tests b.now at n trigger)) × (result < 8) }
{
    let left = token_wrong(n, trigger, read(b, at));
    let right = token_wrong(n, trigger, read(b, at + 1));
    let set = read(b, at + 2);
    first_wrong(&[left, right, set < 1 || set > 8191])
}

// The first wrong word of record i of table 5, or its width; a is its alternative, and r that one's rule.
pub fn fifth_word(tables: Tables, i: usize, at: usize, a: usize, r: usize) -> usize
    requires { Place tables.edition tables.words.now 5 i at × (a < 2 ^ 32) × (r < 2 ^ 32) × (a ≡ owner tables.edition tables.words.now 3 2 i) × (r ≡ owner tables.edition tables.words.now 2 2 a) }
    ensures { (result ≡ wrong_word tables.entry.edition tables.entry.words.now 5 i) × (result < 8) }
{
    let n = number_at(tables.words, tables.offset_of(3) + a * 4 + 1);
    let trigger = number_at(tables.words, tables.offset_of(2) + r * 4) != NO_LIMIT;
    if tables.edition == 2 {
        constraint_word(tables.words, at, n, trigger)
    } else {
        atom_word(tables.words, at, n, trigger)
    }
}

// The first wrong word of record i of table t, or its width, for the tables whose records are tested without an owner: 0, 2, 3, 4.
pub fn plain_word(tables: Tables, t: usize, i: usize, at: usize) -> usize
    requires { (t < 5) × (t ≡ 1 → ⊥) × Place tables.edition tables.words.now t i at }
    ensures { (result ≡ wrong_word tables.entry.edition tables.entry.words.now t i) × (result < 8) }
{
    match t {
        0 => variable_word(tables, i, at),
        2 => rule_word(tables, i, at),
        3 => alternative_word(tables, i, at),
        _ => name_word(tables, i, at),
    }
}
