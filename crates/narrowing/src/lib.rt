// What the constraints of a sheet's alternative leave for every two of its tokens: a table of sets of relations, cut by
// composition until nothing changes.
#![tactic(auto)]

ghost use Rattle.std.specs.Prelude.{◌≡◌, ◌+◌, ◌*◌, ◌-◌, ◌^◌, ◌≤◌, ◌<◌, length};
ghost use Rattle.answers.specs.Numbers.{numbers_of};
ghost use Rattle.words.specs.Words.{word};
ghost use Rattle.narrowing.specs.First.{first_word, filled, cut_by, constrained, constrained_all};
ghost use Rattle.narrowing.specs.Narrowed.{cut_word, across, step_word, narrowed};
ghost use Rattle.narrowing.specs.Passes.{CutOnce, Passed, Seated, AllSeated};
ghost use Rattle.narrowing.specs.Sheet.{first_token, alternative_of, constraints_of, narrowing, table_after};

use answers::{Answer, Done, Refusal};
use clock::Time;
use words::number_at;

// An alternative of a sheet: how many tokens it has, which number its constraints give the first of them, and where the
// constraints are, and how many.
#[derive(Clone, Copy)]
struct Alternative {
    tokens: usize,
    first: usize,
    place: usize,
    constraints: usize,
}

// The word of the first table at t: "equals" alone for a token and itself, else all thirteen.
#[tactic(auto, unfolding(crate::specs::First::first_word))]
fn first_word(n: usize, t: usize) -> u32
    requires { 0 < n }
    ensures { result ≡ first_word n t }
{
    if t / n == t % n { 64 } else { 8191 }
}

// The sets of relations that are left for every two of n tokens, in a lent table.
#[derive(Drop)]
struct Sets<'a> {
    table: &'a mut [u32],
    tokens: usize,
    ghost few: { tokens ≤ 5 },
    ghost fits: { tokens * tokens ≤ length table.now },
}

impl Sets<'_> {
    ghost use Rattle.narrowing.specs.Lent.{Kept};

    // ---- cutting by composition

    // The word at a, cut by the composition of those at b and c; whether it stayed.
    #[tactic(auto, unfolding(crate::specs::Narrowed::cut_word))]
    fn cut(&mut self, a: usize, b: usize, c: usize) -> bool
        requires { (a < length self.old.table.now) × (b < length self.old.table.now) × (c < length self.old.table.now) }
        ensures same { Kept self.old self.new }
        ensures once { CutOnce self.old.table.now self.new.table.now a (cut_word self.old.table.now a b c) result }
    {
        let old = self.table[a];
        let left = self.table[b];
        let right = self.table[c];
        let cut = old & composition::compose(left, right);
        self.table[a] = cut;
        old == cut
    }

    // Step t of a pass: the set of two is cut by way of a third.
    #[tactic(auto, using(crate::proofs::Places::small), unfolding(crate::specs::Narrowed::step_word))]
    fn cut_step(&mut self, t: usize) -> bool
        requires { t < self.old.tokens * self.old.tokens * self.old.tokens }
        ensures same { Kept self.old self.new }
        ensures once { CutOnce self.old.table.now self.new.table.now (across self.old.tokens t) (step_word self.old.tokens t self.old.table.now) result }
    {
        let n = self.tokens;
        let u = t / n;
        let i = u % n;
        let k = u / n;
        let j = t % n;
        self.cut(i * n + j, i * n + k, k * n + j)
    }

    // Every two tokens by way of every third, once; whether nothing changed.
    #[tactic(auto, using(crate::proofs::Steps::passed_none))]
    fn pass(&mut self) -> bool
        ensures same { Kept self.old self.new }
        ensures once { Passed self.old.tokens (self.old.tokens * self.old.tokens * self.old.tokens) self.old.table.now self.new.table.now result }
    {
        let n = self.tokens;
        let mut same = true;
        for t in 0..n * n * n {
            same &= self.cut_step(t);
        }
        same
    }

    // The sets, cut by composition until nothing changes.
    fn settle(&mut self)
        ensures same { Kept self.old self.new }
        ensures table { self.new.table.now ≡ narrowed self.old.tokens self.old.table.now }
    {
        // no count: it ends since each pass that changes anything makes the words' sum smaller
        loop {
            if self.pass() {
                return;
            }
        }
    }

    // ---- the first table

    // Begins: the sets of the first table.
    #[tactic(auto, using(crate::proofs::Places::square, crate::proofs::Tables::filled_more), unfolding(crate::specs::First::filled))]
    fn begin(&mut self)
        ensures same { Kept self.old self.new }
        ensures table { self.new.table.now ≡ filled self.old.tokens (self.old.tokens * self.old.tokens) self.old.table.now }
    {
        let n = self.tokens;
        for t in 0..n * n {
            self.table[t] = first_word(n, t);
        }
    }

    // The word at a, cut by the set d.
    #[tactic(auto, unfolding(crate::specs::First::cut_by))]
    fn cut_by(&mut self, a: usize, d: u32)
        requires { a < length self.old.table.now }
        ensures same { Kept self.old self.new }
        ensures table { self.new.table.now ≡ cut_by self.old.table.now a d }
    {
        self.table[a] &= d;
    }

    // A constraint cuts its pair and, by its converse, the reversed one.
    #[tactic(auto, using(crate::proofs::Places::pair, crate::proofs::Tables::two_cuts))]
    fn constrain(&mut self, l: usize, r: usize, d: u32)
        requires { (l < self.old.tokens) × (r < self.old.tokens) }
        ensures same { Kept self.old self.new }
        ensures table { self.new.table.now ≡ constrained self.old.tokens l r d self.old.table.now }
    {
        let n = self.tokens;
        let a = l * n + r;
        let b = r * n + l;
        let c = composition::converse_set(d);
        self.cut_by(a, d);
        self.cut_by(b, c);
    }

    // The same for the constraint at a place of the sheet.
    fn constrain_at(&mut self, s: &[u32], at: usize, first: usize)
        requires { (at < 2 ^ 40) × Seated self.old.tokens first (word s.now at) × Seated self.old.tokens first (word s.now (at + 1)) }
        ensures same { Kept self.old self.new }
        ensures table { self.new.table.now ≡ constrained self.old.tokens (word s.now at - first) (word s.now (at + 1) - first) (word s.now (at + 2)) self.old.table.now }
    {
        let l = number_at(s, at) - first;
        let r = number_at(s, at + 1) - first;
        let d = words::word_at(s, at + 2);
        self.constrain(l, r, d);
    }

    // All constraints of an alternative of so many tokens, in turn.
    fn constrain_all(&mut self, s: &[u32], p: Alternative)
        requires { (p.tokens ≡ self.old.tokens) × (p.place < 2 ^ 36) × (p.constraints < 2 ^ 32) × AllSeated s.now p }
        ensures same { Kept self.old self.new }
        ensures table { self.new.table.now ≡ constrained_all p.tokens p.first (constraints_of s.now p) self.old.table.now }
    {
        for i in 0..p.constraints {
            self.constrain_at(s, p.place + i * 3, p.first);
        }
    }
}

// ---- the alternative

// The number of the first token: 0, the trigger, or 1, the first name, where the rule has none.
#[tactic(auto, using(crate::proofs::Sheets::first_name, crate::proofs::Sheets::first_trigger), unfolding(crate::specs::Sheet::rule_of))]
fn first_token(s: &[u32], a: usize) -> usize
    ensures { (result ≡ first_token s.now a) × (result ≤ 1) }
{
    let v = number_at(s, number_at(s, 7) + layout::rule_of(s, 2, a) * 4);
    if v == Time::NO_LIMIT as usize { 1 } else { 0 }
}

// Alternative number a, as the sheet has it.
fn alternative_of(s: &[u32], a: usize) -> Alternative
    requires { a < 2 ^ 32 }
    ensures { (result ≡ alternative_of s.now a) × (result.place < 2 ^ 36) × (result.constraints < 2 ^ 32) }
{
    let first = first_token(s, a);
    let at = number_at(s, 9) + a * 4;
    Alternative {
        tokens: number_at(s, at + 1) + (1 - first),
        first,
        place: number_at(s, 13) + 3 * number_at(s, at + 2),
        constraints: number_at(s, at + 3),
    }
}

// Fills the lent table with what the constraints of an alternative leave for every two of its tokens. Refused, the table is
// untouched.
#[tactic(auto, using(crate::proofs::Places::square, crate::proofs::Sheets::read, crate::proofs::Sheets::few_of))]
pub fn narrow(sheet: &[u32], alternative: u32, table: &mut [u32]) -> Answer
    ensures { (numbers_of result ≡ narrowing sheet.now alternative (length table.old)) × (table.new ≡ table_after sheet.now alternative table.old) }
{
    book::check(sheet, 2)?;
    let a = alternative as usize;
    if number_at(sheet, 8) <= a {
        return Err(Refusal::NoSuchAlternative);
    }
    let p = alternative_of(sheet, a);
    let n = p.tokens;
    if table.len() < n * n {
        return Err(Refusal::TableTooShort);
    }
    let mut sets = Sets { table, tokens: n };
    sets.begin();
    sets.constrain_all(sheet, p);
    sets.settle();
    Ok(Done { a: 0, b: 0 })
}
