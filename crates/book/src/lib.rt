// Whether a book or a sheet is sound: answers 1 to 4. Both have one layout, with the edition e, 1 or 2. Once that is known to be
// right, the tables are gone through in order, each record once.
#![tactic(auto)]

ghost use Rattle.std.specs.Prelude.{◌≡◌, ◌<◌, ◌≤◌, ◌^◌, length};
ghost use Rattle.answers.specs.Numbers.{numbers_of};
ghost use Rattle.layout.specs.Layout.{count, ending};
ghost use Rattle.layout.specs.Owner.{Within};
ghost use Rattle.records.specs.Wrong.{wrong_word};
ghost use Rattle.book.specs.Fault.{leaves, lowest, table_wrong, first_table, told_word, book_fault};

use answers::{Answer, Done, Refusal};
use layout::{Tables, fifth_width};
use records::{fifth_word, plain_word, value_word};

// The lowest bad record of a table that needs no owner, or its count.
fn first_plain(tables: Tables, t: usize) -> usize
    requires { (t < 5) × (t ≡ 1 → ⊥) × (ending tables.edition tables.words.now t ≤ length tables.words.now) }
    ensures { (result ≡ lowest tables.entry.edition tables.entry.words.now t) × (result < 2 ^ 32) }
{
    let n = tables.count_of(t);
    let base = tables.offset_of(t);
    let w = tables.width_of(t);
    for i in 0..n {
        if plain_word(tables, t, i, base + i * w) < w {
            return i;
        }
    }
    n
}

// The lowest bad value, or their count. Its variable v only moves forward.
fn first_value(tables: Tables) -> usize
    requires { (ending tables.edition tables.words.now 0 ≤ length tables.words.now) × (ending tables.edition tables.words.now 1 ≤ length tables.words.now) }
    ensures { (result ≡ lowest tables.entry.edition tables.entry.words.now 1) × (result < 2 ^ 32) }
{
    let n = tables.count_of(1);
    let base = tables.offset_of(1);
    let mut v = 0;
    for i in 0..n {
        v = tables.owner_from(0, 0, i, v);
        if value_word(tables, i, base + i * 3, v) < 3 {
            return i;
        }
    }
    n
}

// The lowest bad record of table 5, or its count. Its alternative a and that one's rule r only move forward.
fn first_fifth(tables: Tables) -> usize
    requires { (ending tables.edition tables.words.now 2 ≤ length tables.words.now) × (ending tables.edition tables.words.now 3 ≤ length tables.words.now) × (ending tables.edition tables.words.now 5 ≤ length tables.words.now) }
    ensures { (result ≡ lowest tables.entry.edition tables.entry.words.now 5) × (result < 2 ^ 32) }
{
    let n = tables.count_of(5);
    let base = tables.offset_of(5);
    let w = fifth_width(tables.edition);
    let mut a = 0;
    let mut r = 0;
    for i in 0..n {
        a = tables.owner_from(3, 2, i, a);
        r = tables.owner_from(2, 2, a, r);
        if fifth_word(tables, i, base + i * w, a, r) < w {
            return i;
        }
    }
    n
}

// The lowest bad record of table t, or its count.
fn first_bad(tables: Tables, t: usize) -> usize
    requires { (t < 6) × Within tables.edition tables.words.now }
    ensures { (result ≡ lowest tables.entry.edition tables.entry.words.now t) × (result < 2 ^ 32) }
{
    match t {
        1 => first_value(tables),
        5 => first_fifth(tables),
        _ => first_plain(tables, t),
    }
}

// Whether the ranges of table t do not use up the next table.
#[tactic(auto, unfolding(crate::specs::Fault::leaves))]
fn leaves_of(tables: Tables, t: usize) -> bool
    requires { Within tables.edition tables.words.now }
    ensures { result ≡ leaves tables.entry.edition tables.entry.words.now t }
{
    match t {
        0 => tables.unused_of(0, 0, 1),
        2 => tables.unused_of(2, 2, 3),
        3 => tables.unused_of(3, 0, 4) || tables.unused_of(3, 2, 5),
        _ => false,
    }
}

// Whether table t has a bad record, or leaves some of the next table.
#[tactic(auto, unfolding(crate::specs::Fault::table_wrong))]
fn table_wrong(tables: Tables, t: usize) -> bool
    requires { (t < 6) × Within tables.edition tables.words.now }
    ensures { result ≡ table_wrong tables.entry.edition tables.entry.words.now t }
{
    first_bad(tables, t) < tables.count_of(t) || leaves_of(tables, t)
}

// The first wrong table, or 6.
fn first_table(tables: Tables) -> usize
    requires { Within tables.edition tables.words.now }
    ensures { result ≡ first_table tables.entry.edition tables.entry.words.now }
{
    for t in 0..6 {
        if table_wrong(tables, t) {
            return t;
        }
    }
    6
}

// The first wrong word of record i of table t. It is asked once, of a record that is told, so its owners are looked for from the start.
fn first_word(tables: Tables, t: usize, i: usize) -> usize
    requires { (t < 6) × Within tables.edition tables.words.now × (i < count tables.words.now t) × (i < 2 ^ 32) }
    ensures { (result ≡ wrong_word tables.entry.edition tables.entry.words.now t i) × (result < 8) }
{
    let base = tables.offset_of(t);
    let w = tables.width_of(t);
    let at = base + i * w;
    match t {
        1 => {
            let v = tables.owner_from(0, 0, i, 0);
            value_word(tables, i, at, v)
        }
        5 => {
            let a = tables.owner_from(3, 2, i, 0);
            let r = tables.owner_from(2, 2, a, 0);
            fifth_word(tables, i, at, a, r)
        }
        _ => plain_word(tables, t, i, at),
    }
}

// The word that is told of record i of table t: 0 for the table's count, which is no record.
#[tactic(auto, unfolding(crate::specs::Fault::told_word))]
fn told_word(tables: Tables, t: usize, i: usize) -> usize
    requires { (t < 6) × Within tables.edition tables.words.now × (i < 2 ^ 32) }
    ensures { (result ≡ told_word tables.entry.edition tables.entry.words.now t i) × (result < 8) }
{
    if i < tables.count_of(t) {
        first_word(tables, t, i)
    } else {
        0
    }
}

// What is wrong with a book, if e is 1, or with a sheet, if e is 2: the first of answers 1 to 4 that fits, or no fault.
pub fn check(b: &[u32], e: usize) -> Answer
    ensures { numbers_of result ≡ book_fault e b.now }
{
    layout::check(b, e)?;
    let tables = Tables {
        words: b,
        edition: e,
    };
    let t = first_table(tables);
    if t < 6 {
        let i = first_bad(tables, t);
        return Err(Refusal::BookRecord {
            table: t as u32,
            record: i as u32,
            word: told_word(tables, t, i) as u32,
        });
    }
    Ok(Done { a: 0, b: 0 })
}
