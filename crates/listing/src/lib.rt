// The choices of a sheet, listed: an item for each alternative of the book to be.
#![tactic(auto)]

ghost use Rattle.std.specs.Prelude.{◌≡◌, ℕ, ◌+◌, ◌*◌, ◌-◌, ◌^◌, ◌<◌, ◌≤◌, length};
ghost use Rattle.words.specs.Words.{word};
ghost use Rattle.words.specs.Write.{Wrote};
ghost use Rattle.listing.specs.Items.{gather, up_to, items_from, items_at, Digits};
ghost use Rattle.listing.specs.Listed.{Fits, ListedIs};

// How many alternatives a rule of a book may have.
const MOST: usize = 64;

// Lists the choices of the k constraints that remain, the first of which stands at `at`, with relations from x on for that
// one: an item for each, the last constraint turning fastest. `acc` has what was chosen before, and m is the worth of the
// next digit. Stops at the limit. Answers how many items there are now.
fn list_choices(
    s: &[u32],
    k: usize,
    at: usize,
    acc: u64,
    m: u64,
    x: u32,
    limit: usize,
    out: &mut [u64; 4097],
    n: usize,
) -> usize
    requires { (at + 3 * k < 2 ^ 40) × (Digits k m × ((acc < m) × (limit ≤ 4097))) }
    ensures { Wrote out.old out.new n result (up_to limit n (items_from s.now k at acc m x)) }
{
    if n >= limit {
        return n;
    }
    if k == 0 {
        out[n] = acc;
        return n + 1;
    }
    if x < 13 {
        if words::in_set(words::word_at(s, at + 2), x) {
            let a = list_choices(
                s,
                k - 1,
                at + 3,
                acc + m * (x as u64),
                m * 16,
                0,
                limit,
                out,
                n,
            );
            return list_choices(s, k, at, acc, m, x + 1, limit, out, a);
        }
        return list_choices(s, k, at, acc, m, x + 1, limit, out, n);
    }
    n
}

// Lists the choices of n alternatives, the first of which stands at `at`, up to the limit.
fn list_alternatives(
    s: &[u32],
    n: usize,
    at: usize,
    limit: usize,
    out: &mut [u64; 4097],
    from: usize,
) -> usize
    requires { (at + 4 * n ≤ 16384) × ((limit ≤ 4097) × ((j : ℕ) → j < n → word s.now (at + 4 * j + 3) ≤ 8)) }
    ensures { Wrote out.old out.new from result (up_to limit from (gather (items_at s.now) 4 n at)) }
{
    let base = words::number_at(s, 13);
    let mut m = from;
    for i in 0..n {
        let p = at + 4 * i;
        let part = words::number_at(s, p + 2);
        let k = words::number_at(s, p + 3);
        m = list_choices(s, k, base + 3 * part, p as u64, 16384, 0, limit, out, m);
    }
    m
}

// Lists the choices of all rules, and how many each rule has; answers how many items there are, or the first rule that would
// have over 64 alternatives. The list is a lent array with its length beside it, since the library has no heap.
pub fn list_rules(s: &[u32], out: &mut [u64; 4097], numbers: &mut [u32; 64]) -> Result<usize, usize>
    requires { Fits s.now × ((length out.old ≡ 4097) × (length numbers.old ≡ 64)) }
    ensures { ListedIs s.now out.new numbers.new result }
{
    let rules = words::number_at(s, 6);
    let table = words::number_at(s, 7);
    let base = words::number_at(s, 9);
    let mut n = 0;
    for i in 0..rules {
        let q = table + 4 * i;
        let part = words::number_at(s, q + 2);
        let k = words::number_at(s, q + 3);
        let m = list_alternatives(s, k, base + 4 * part, n + (MOST + 1), out, n);
        let added = m - n;
        if added > MOST {
            return Err(i);
        }
        numbers[i] = added as u32;
        n = m;
    }
    Ok(n)
}
