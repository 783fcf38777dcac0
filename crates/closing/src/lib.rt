// A book written anew with some of its rules: each table behind the one before, each range where the one before ends.
#![tactic(auto)]

ghost use Rattle.std.specs.Prelude.{◌≡◌, ◌+◌, ◌*◌, ◌^◌, ◌≤◌, ◌<◌, map, length};
ghost use Rattle.words.specs.Write.{Wrote, Has};
ghost use Rattle.layout.specs.Layout.{offset};
ghost use Rattle.writing.specs.Writing.{HasRoom, WroteTo};
ghost use Rattle.closing.specs.Rebuilt.{rebuilt};
ghost use Rattle.closing.specs.Left.{Ranged, numbers_from, words_at, alts_from, rules_from, rows_from, parts_from, total_from, alt_word, head_by, rule_in, tables_by, Fitting, Ready};

use words::{number_at, word_at};
use writing::Writer;

// ---- the alternatives

// Puts n numbers, the first of which is k.
fn put_numbers(n: usize, k: usize, w: &mut Writer<'_>)
    requires { (k + n ≤ 1024) × HasRoom w.old (numbers_from n k) }
    ensures { WroteTo w.old w.new (numbers_from n k) }
{
    for i in 0..n {
        w.put(&[(k + i) as u32]);
    }
}

// Lists the numbers of the kept rules' alternatives.
fn list_alternatives(s: &[u32], left: &[u32], w: &mut Writer<'_>)
    requires { Ranged s.now left.now × HasRoom w.old (alts_from s.now left.now 0) }
    ensures { WroteTo w.old w.new (alts_from s.now left.now 0) }
{
    let base = number_at(s, 7);
    for x in left {
        let p = base + 4 * *x as usize;
        put_numbers(number_at(s, p + 3), number_at(s, p + 2), w);
    }
}

// ---- the tables

// Copies n words of the book, those from `at` on, to a place, and answers the place behind them; past the end they are 0. It has the room
// and the place as they are, since a step of the writer for each word takes longer.
fn copy_run(s: &[u32], at: usize, n: usize, out: &mut [u32], to: usize) -> usize
    requires { (at + n < 2 ^ 63) × Has out.old to (words_at s.now at n) }
    ensures { Wrote out.old out.new to result (words_at s.now at n) }
{
    for i in 0..n {
        out[to + i] = word_at(s, at + i);
    }
    to + n
}

// The same, with a writer.
fn put_run(s: &[u32], at: usize, n: usize, w: &mut Writer<'_>)
    requires { (at + n < 2 ^ 63) × HasRoom w.old (words_at s.now at n) }
    ensures { WroteTo w.old w.new (words_at s.now at n) }
{
    w.at = copy_run(s, at, n, w.words, w.at);
}

// Word j of alternative number a.
fn alt_word(s: &[u32], a: usize, j: usize) -> usize
    requires { (a < 2 ^ 32) × (j < 4) }
    ensures { (result ≡ alt_word s.now j a) × (result < 2 ^ 32) }
{
    number_at(s, number_at(s, 9) + 4 * a + j)
}

// How many names (j is 1) or atoms (j is 3) alternatives have together.
fn total(s: &[u32], alts: &[u32], j: usize) -> usize
    requires { (length alts.now ≤ 1024) × (j < 4) }
    ensures { (result ≡ total_from s.now alts.now j 0) × (result ≤ 2 ^ 42) }
{
    alts.iter().map(|a| alt_word(s, *a as usize, j)).sum()
}

// Table 2: a row for each rule, with a running number of alternatives.
fn put_rules(s: &[u32], left: &[u32], w: &mut Writer<'_>)
    requires { (length (alts_from s.now left.now 0) ≤ 1024) × HasRoom w.old (rules_from s.now left.now 0 0) }
    ensures { WroteTo w.old w.new (rules_from s.now left.now 0 0) }
{
    let base = number_at(s, 7);
    let mut k: u32 = 0;
    for x in left {
        let p = base + 4 * *x as usize;
        let n = word_at(s, p + 3);
        w.put(&[word_at(s, p), word_at(s, p + 1), k, n]);
        k += n;
    }
}

// Table 3: a row for each alternative, with running numbers of names and atoms.
fn put_alternatives(s: &[u32], alts: &[u32], w: &mut Writer<'_>)
    requires alts_bound { (total_from s.now alts.now 1 0 ≤ 2048) × (total_from s.now alts.now 3 0 ≤ 2048) }
    requires has { HasRoom w.old (rows_from s.now alts.now 0 0 0) }
    ensures { WroteTo w.old w.new (rows_from s.now alts.now 0 0 0) }
{
    let mut name = 0;
    let mut atom = 0;
    for a in alts {
        let n = alt_word(s, *a as usize, 1);
        let m = alt_word(s, *a as usize, 3);
        w.put(&[name as u32, n as u32, atom as u32, m as u32]);
        name += n;
        atom += m;
    }
}

// Table 4 (j is 0, size is 2) or table 5 (j is 2, size is 6), at the place o of the book: each alternative's part, as it stands.
fn put_parts(s: &[u32], alts: &[u32], j: usize, size: usize, o: usize, w: &mut Writer<'_>)
    requires { (j < 3) × (size ≤ 6) × (o < 2 ^ 32) × HasRoom w.old (parts_from s.now alts.now j size o 0) }
    ensures { WroteTo w.old w.new (parts_from s.now alts.now j size o 0) }
{
    for a in alts {
        let from = o + size * alt_word(s, *a as usize, j);
        let n = size * alt_word(s, *a as usize, j + 1);
        put_run(s, from, n, w);
    }
}

// The header of a book with r rules, n alternatives, m names and k atoms: what the book says of tables 0 and 1 stays.
fn put_header(s: &[u32], r: usize, n: usize, m: usize, k: usize, w: &mut Writer<'_>)
    requires { (offset s.now 2 + 4 * r + 4 * n + 2 * m + 6 * k ≤ 16384) × HasRoom w.old (head_by s.now r n m k) }
    ensures { WroteTo w.old w.new (head_by s.now r n m k) }
{
    let o2 = number_at(s, 7);
    let o3 = o2 + 4 * r;
    let o4 = o3 + 4 * n;
    let o5 = o4 + 2 * m;
    let end = o5 + 6 * k;
    let header = [
        1,
        end as u32,
        word_at(s, 2),
        14,
        word_at(s, 4),
        word_at(s, 5),
        r as u32,
        o2 as u32,
        n as u32,
        o3 as u32,
        m as u32,
        o4 as u32,
        k as u32,
        o5 as u32,
    ];
    w.put(&header);
}

// Tables 2 to 5, one behind the other.
fn put_tables(s: &[u32], left: &[u32], alts: &[u32], w: &mut Writer<'_>)
    requires left_len_bound { (length (alts_from s.now left.now 0) ≤ 1024) × (total_from s.now alts.now 1 0 ≤ 2048) × (total_from s.now alts.now 3 0 ≤ 2048) }
    requires has { HasRoom w.old (tables_by s.now left.now alts.now) }
    ensures { WroteTo w.old w.new (tables_by s.now left.now alts.now) }
{
    put_rules(s, left, w);
    put_alternatives(s, alts, w);
    put_parts(s, alts, 0, 2, number_at(s, 11), w);
    put_parts(s, alts, 2, 6, number_at(s, 13), w);
}

// The whole book, with the rules of these numbers and their alternatives.
fn put_all(s: &[u32], left: &[u32], alts: &[u32], w: &mut Writer<'_>)
    requires { Ready s.now left.now alts.now × HasRoom w.old (rebuilt s.now (map (rule_in s.now) left.now)) }
    ensures { WroteTo w.old w.new (rebuilt s.now (map (rule_in s.now) left.now)) }
{
    let m = total(s, alts, 1);
    let k = total(s, alts, 3);
    put_header(s, left.len(), alts.len(), m, k, w);
    w.put(&s[14..number_at(s, 7)]);
    put_tables(s, left, alts, w);
}

// Writes the book s with the rules of these numbers, in their order, from the start of `out`, and answers where it ends.
pub fn put_book(s: &[u32], left: &[u32], out: &mut [u32]) -> usize
    requires { Fitting s.now left.now × (length out.old ≡ length s.now) }
    ensures { Wrote out.old out.new 0 result (rebuilt s.now (map (rule_in s.now) left.now)) }
{
    let mut alts: [u32; 1024] = [0; 1024];
    let mut list = Writer {
        words: &mut alts,
        at: 0,
    };
    list_alternatives(s, left, &mut list);
    let n = list.at;
    let mut w = Writer { words: out, at: 0 };
    put_all(s, left, &alts[..n], &mut w);
    w.at
}
