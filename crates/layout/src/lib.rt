// The layout of a book or a sheet, and answers 1 to 3. Both have one layout, with the edition e, 1 or 2; what differs by it is
// table 5. The header is read by place and is 0 past the end. Once it is known to be right, the tables lie in the book, and
// their records are read without a test for the end.
#![tactic(auto)]

ghost use Rattle.std.specs.Prelude.{◌≡◌, ◌+◌, ◌*◌, ◌<◌, ◌≤◌, ◌^◌, length};
ghost use Rattle.answers.specs.Numbers.{numbers_of};
ghost use Rattle.words.specs.Words.{word};
ghost use Rattle.layout.specs.Layout.{fifth_width, fifth_most, width, count, offset, ending, begins, header_wrong, record_at, starts, unused, owner};
ghost use Rattle.layout.specs.Fault.{first_header, layout_fault};
ghost use Rattle.layout.specs.Owner.{Cursor};

use answers::{Answer, Done, Refusal};
use words::number_at;

// Of each table the least count, the greatest, and the words of a record: columns, as the definitions have them. A row of named
// fields for each table says no more, in thirty lines.
const FEWEST: [usize; 6] = [1, 1, 0, 0, 0, 0];

const MOST: [usize; 6] = [16, 512, 64, 1024, 2048, 2048];

const WIDTHS: [usize; 6] = [2, 3, 4, 4, 2, 6];

// A book, of edition 1, or a sheet, of edition 2: its words, and the edition. The edition is a number, and no enum: the definitions
// and contracts speak of every e, and callers would have to show that theirs is one of the two.
// A table is a number below 6, and no enum: the header has its words at 2 + 2t and 3 + 2t, and answer 4 tells it.
#[derive(Clone, Copy)]
pub struct Tables<'a> {
    pub words: &'a [u32],
    pub edition: usize,
}

// ---- widths and words

// The words of a record of table 5: an atom in a book, a constraint in a sheet.
#[tactic(auto, unfolding(crate::specs::Layout::fifth_width))]
pub fn fifth_width(e: usize) -> usize
    ensures { (result ≡ fifth_width e) × (result < 8) }
{
    if e == 2 { 3 } else { 6 }
}

// How many records of table 5 an alternative has at most.
#[tactic(auto, unfolding(crate::specs::Layout::fifth_most))]
pub fn fifth_most(e: usize) -> usize
    ensures { result ≡ fifth_most e }
{
    if e == 2 { 8 } else { 32 }
}

// The word at a place that lies in the book.
pub fn read(b: &[u32], at: usize) -> usize
    requires { at < length b.now }
    ensures { (result ≡ word b.now at) × (result < 2 ^ 32) }
{
    b[at] as usize
}

impl<'a> Tables<'a> {
    // ---- the header

    // The words of a record of table t.
    pub fn width_of(self, t: usize) -> usize
        requires { t < 6 }
        ensures { (result ≡ width self.entry.edition t) × (result < 8) }
    {
        if t == 5 {
            fifth_width(self.edition)
        } else {
            WIDTHS[t]
        }
    }

    // The count of table t, as the header has it.
    pub fn count_of(self, t: usize) -> usize
        requires { t < 6 }
        ensures { (result ≡ count self.entry.words.now t) × (result < 2 ^ 32) }
    {
        number_at(self.words, 2 + 2 * t)
    }

    // The offset of table t, as the header has it.
    pub fn offset_of(self, t: usize) -> usize
        requires { t < 6 }
        ensures { (result ≡ offset self.entry.words.now t) × (result < 2 ^ 32) }
    {
        number_at(self.words, 3 + 2 * t)
    }

    // Where table t ends.
    fn ending_of(self, t: usize) -> usize
        requires { t < 6 }
        ensures { result ≡ ending self.entry.edition self.entry.words.now t }
    {
        self.offset_of(t) + self.count_of(t) * self.width_of(t)
    }

    // Where table t has to begin.
    #[tactic(auto, unfolding(crate::specs::Layout::begins))]
    fn begins_of(self, t: usize) -> usize
        requires { t < 6 }
        ensures { result ≡ begins self.entry.edition self.entry.words.now t }
    {
        if t == 0 { 14 } else { self.ending_of(t - 1) }
    }

    // Whether header word k is wrong.
    #[tactic(auto, unfolding(crate::specs::Layout::header_wrong))]
    fn header_wrong(self, k: usize) -> bool
        requires { k < 14 }
        ensures { result ≡ header_wrong self.entry.edition self.entry.words.now k }
    {
        let x = number_at(self.words, k);
        if k == 0 {
            return x != self.edition;
        }
        if k == 1 {
            return x != self.words.len();
        }
        let t = (k - 2) / 2;
        if k % 2 == 0 {
            return x < FEWEST[t] || x > MOST[t];
        }
        x != self.begins_of(t)
    }

    // The first wrong header word, or 14.
    fn first_header(self) -> usize
        ensures { result ≡ first_header self.entry.edition self.entry.words.now }
    {
        for k in 0..14 {
            if self.header_wrong(k) {
                return k;
            }
        }
        14
    }

    // ---- ranges

    // Where the range at word j of the record at a place ends.
    fn range_end(self, at: usize, j: usize) -> usize
        requires { at + (j + 1) < length self.words.now }
        ensures { result ≡ word self.entry.words.now (at + j) + word self.entry.words.now (at + (j + 1)) }
    {
        read(self.words, at + j) + read(self.words, at + (j + 1))
    }

    // Where the range at word j of record i of table t has to start: at 0, or where that of the record before ends. It is asked
    // for the count too, whose place is the table's end.
    #[tactic(auto, unfolding(crate::specs::Layout::starts))]
    pub fn starts_of(self, t: usize, j: usize, i: usize, at: usize) -> usize
        requires { (t < 6) × (j + 2 ≤ width self.edition t) × (at ≡ record_at self.edition self.words.now t i) × (at ≤ length self.words.now) }
        ensures { result ≡ starts self.entry.edition self.entry.words.now t j i }
    {
        if i == 0 {
            0
        } else {
            self.range_end(at - self.width_of(t), j)
        }
    }

    // Whether the ranges at word j of table t do not use up the table `into`.
    pub fn unused_of(self, t: usize, j: usize, into: usize) -> bool
        requires { (t < 6) × (j + 2 ≤ width self.edition t) × (into < 6) × (ending self.edition self.words.now t ≤ length self.words.now) }
        ensures { result ≡ unused self.entry.edition self.entry.words.now t j into }
    {
        self.starts_of(t, j, self.count_of(t), self.ending_of(t)) != self.count_of(into)
    }

    // The record of table t in whose range at word j the number i lies, or the count. It lies in none before `from`, so that a
    // caller who goes through the numbers in order never looks back.
    pub fn owner_from(self, t: usize, j: usize, i: usize, from: usize) -> usize
        requires { (t < 6) × (j + 2 ≤ width self.edition t) × (ending self.edition self.words.now t ≤ length self.words.now) × Cursor self.edition self.words.now t j i from }
        ensures { (result ≡ owner self.entry.edition self.entry.words.now t j i) × (result < 2 ^ 32) }
    {
        let n = self.count_of(t);
        let base = self.offset_of(t);
        let w = self.width_of(t);
        for k in from..n {
            if i < self.range_end(base + k * w, j) {
                return k;
            }
        }
        n
    }
}

// ---- from the words and the edition

// The rule of alternative a, counted over the whole of table 3, or the number of rules where there is none: whatever the words are.
pub fn rule_of(b: &[u32], e: usize, a: usize) -> usize
    ensures { (result ≡ owner e b.now 2 2 a) × (result < 2 ^ 32) }
{
    let tables = Tables {
        words: b,
        edition: e,
    };
    let n = tables.count_of(2);
    let base = tables.offset_of(2);
    let w = tables.width_of(2);
    for r in 0..n {
        let at = base + r * w;
        if a < number_at(b, at + 2) + number_at(b, at + 3) {
            return r;
        }
    }
    n
}

// What is wrong with the layout of a book, if e is 1, or of a sheet, if e is 2: the first of answers 1 to 3 that fits, or no fault.
#[tactic(auto, unfolding(answers::specs::Numbers::or_else, crate::specs::Fault::layout_fault, crate::specs::Fault::length_fault, crate::specs::Fault::header_fault, crate::specs::Fault::end_fault))]
pub fn check(b: &[u32], e: usize) -> Answer
    ensures { numbers_of result ≡ layout_fault e b.now }
{
    let tables = Tables {
        words: b,
        edition: e,
    };
    let n = b.len();
    if n < 14 || n > 16384 {
        return Err(Refusal::BookLength);
    }
    let k = tables.first_header();
    if k < 14 {
        return Err(Refusal::BookHeader { word: k as u32 });
    }
    if tables.ending_of(5) != n {
        return Err(Refusal::BookEnd);
    }
    Ok(Done { a: 0, b: 0 })
}
