// Alternatives that no day could meet: whether times exist for the tokens of a book's alternative, and the earliest of them. What the
// alternative asks is put into a table of bounds between twelve times, and `bounds` finds the least times that meet them.
#![tactic(auto)]

ghost use Rattle.std.specs.Prelude.{◌≡◌, Bool, true, false, ℕ, ◌+◌, ◌*◌, ◌≤◌, ◌<◌, length};
ghost use Rattle.answers.specs.Numbers.{numbers_of};
ghost use Rattle.words.specs.Words.{word};
ghost use Rattle.clock.specs.Clock.{last_tick};
ghost use Rattle.layout.specs.Layout.{count, owner};
ghost use Rattle.book.specs.Fault.{book_fault};
ghost use Rattle.bounds.specs.Bounds.{Near, reach};
ghost use Rattle.earliest.specs.Times.{Lasting, shown_from, laid, Told};
ghost use Rattle.earliest.specs.Steps.{times_of, table_times, Open, Added, Blank, Bound, TermFits, Apart, LimitsFit, KindFits, IsTerm, TimedFits, AtomFits, AtomTimes, AtomsTimed, NameFits, Named, NamesTimed, TriggerFits, Triggered, trigger_of, places_of, Fits, Asked, Filled, Least, Decided, ShownAt};

use answers::{Answer, Done, Refusal};
use bounds::ORIGIN;
use clock::Time;
use words::{number_at, word_at};

// A time of the table, and how much later.
#[derive(Clone, Copy)]
struct Term {
    slot: usize,
    tick: u32,
}

// A rule's trigger: a value of a variable.
#[derive(Clone, Copy)]
struct Trigger {
    variable: u32,
    value: u32,
}

// Where the names and the atoms of an alternative are, and how many.
#[derive(Clone, Copy)]
struct Places {
    name: usize,
    names: usize,
    atom: usize,
    atoms: usize,
}

// A table of bounds between twelve times, as `bounds` takes it: what is put into it keeps it open for more.
struct Table {
    bounds: [u64; 144],
    ghost is_open: { Open bounds },
}

// ---- the table of bounds

// The time that a term names: 0 start of, 1 end of, 2 time point, 3 end of the plan.
fn term_of(kind: u32, k: u32) -> Term
    requires { KindFits kind k }
    ensures { IsTerm kind k result }
{
    // The kinds are the book's own numbers, and only this match asks which one it is.
    match kind {
        2 => Term { slot: 0, tick: k },
        3 => Term { slot: 11, tick: 0 },
        _ => Term {
            slot: 2 * k as usize + kind as usize + 1,
            tick: 0,
        },
    }
}

impl Table {
    // A table that says no more than that no time is below 0.
    fn new() -> Table
        ensures { Blank result.bounds }
    {
        let mut bounds: [u64; 144] = [0; 144];
        bounds[..12].fill(ORIGIN);
        Table { bounds }
    }

    // Puts a bound from time i to time j.
    fn put_bound(&mut self, i: usize, j: usize, e: u64)
        requires { (i < 12) × (j < 12) × Near (reach 12) e }
        ensures { Added (Bound i j e) self.old.bounds self.new.bounds }
    {
        let place = i * 12 + j;
        self.bounds[place] = self.bounds[place].max(e);
    }

    // Puts that right minus left is at least lower and, unless that is the mark, at most upper.
    fn put_difference(&mut self, left: Term, right: Term, lower: u32, upper: u32)
        requires { TermFits left × TermFits right × LimitsFit lower upper }
        ensures { Added (Apart left right lower upper) self.old.bounds self.new.bounds }
    {
        let i = left.slot;
        let j = right.slot;
        let s = left.tick as u64;
        let t = right.tick as u64;
        let least = ORIGIN + s + lower as u64 - t;
        self.put_bound(i, j, least);
        if upper != Time::NO_LIMIT {
            let most = ORIGIN + t - s - upper as u64;
            self.put_bound(j, i, most);
        }
    }

    // Puts the atom of times at a place.
    fn put_timed(&mut self, b: &[u32], at: usize)
        requires { TimedFits b.now at × (at < 1048576) }
        ensures { Added (AtomTimes b.now at) self.old.bounds self.new.bounds }
    {
        let left_kind = word_at(b, at);
        let left = word_at(b, at + 1);
        let right_kind = word_at(b, at + 2);
        let right = word_at(b, at + 3);
        let lower = word_at(b, at + 4);
        let upper = word_at(b, at + 5);
        let l = term_of(left_kind, left);
        let r = term_of(right_kind, right);
        self.put_difference(l, r, lower, upper);
    }

    // Puts the atom at a place: one of jobs counts as met.
    #[tactic(auto, using(crate::proofs::Filling::jobs_met))]
    fn put_atom(&mut self, b: &[u32], at: usize)
        requires { AtomFits b.now at × (at < 1048576) }
        ensures { Added (AtomTimes b.now at) self.old.bounds self.new.bounds }
    {
        let kind = word_at(b, at);
        if kind != 4 {
            self.put_timed(b, at);
        }
    }

    // Puts the n atoms from a place on.
    fn put_atoms(&mut self, b: &[u32], at: usize, n: usize)
        requires fact { at + n * 6 < 1048576 }
        requires by_index { (i : ℕ) → i < n → AtomFits b.now (at + i * 6) }
        ensures { Added (AtomsTimed b.now at n) self.old.bounds self.new.bounds }
    {
        for i in 0..n {
            self.put_atom(b, at + i * 6);
        }
    }

    // Puts least and greatest duration of token k, and that the plan does not end before it.
    fn put_token(&mut self, k: usize, least: u32, greatest: u32)
        requires { (k ≤ 4) × LimitsFit least greatest }
        ensures { Added (λ z. Lasting least greatest k (times_of z)) self.old.bounds self.new.bounds }
    {
        let start = Term {
            slot: 2 * k + 1,
            tick: 0,
        };
        let end = Term {
            slot: 2 * k + 2,
            tick: 0,
        };
        let plan_end = Term { slot: 11, tick: 0 };
        self.put_difference(start, end, least, greatest);
        self.put_difference(end, plan_end, 0, Time::NO_LIMIT);
    }

    // The same of token k, of value v of variable u.
    fn put_name(&mut self, b: &[u32], k: usize, u: u32, v: u32)
        requires { (k ≤ 4) × NameFits b.now u v }
        ensures { Added (Named b.now k u v) self.old.bounds self.new.bounds }
    {
        let first = number_at(b, number_at(b, 3) + 2 * u as usize);
        let place = number_at(b, 5) + 3 * (first + v as usize);
        let least = word_at(b, place);
        let greatest = word_at(b, place + 1);
        self.put_token(k, least, greatest);
    }

    // The same of the n names from a place on, which are the tokens 1, 2, ..
    fn put_names(&mut self, b: &[u32], at: usize, n: usize)
        requires fact { (n ≤ 4) × (at < 1048576) }
        requires by_index { (i : ℕ) → i < n → NameFits b.now (word b.now (at + i * 2)) (word b.now (at + i * 2 + 1)) }
        ensures { Added (NamesTimed b.now at n) self.old.bounds self.new.bounds }
    {
        for i in 0..n {
            let place = at + i * 2;
            self.put_name(b, i + 1, word_at(b, place), word_at(b, place + 1));
        }
    }

    // The same of the trigger, if there is one.
    fn put_trigger(&mut self, b: &[u32], trigger: Option<Trigger>)
        requires { TriggerFits b.now trigger }
        ensures { Added (Triggered b.now trigger) self.old.bounds self.new.bounds }
    {
        if let Some(t) = trigger {
            self.put_name(b, 0, t.variable, t.value);
        }
    }

    // The table of what an alternative asks.
    fn filled(b: &[u32], t: Option<Trigger>, p: Places) -> Table
        requires { Fits b.now t p }
        ensures { Filled b.now t p result.bounds }
    {
        let mut table = Table::new();
        table.put_trigger(b, t);
        table.put_names(b, p.name, p.names);
        table.put_atoms(b, p.atom, p.atoms);
        table
    }
}

// ---- an alternative

// Whether there are times for an alternative, and the least of them.
fn least_times(b: &[u32], t: Option<Trigger>, p: Places, x: &mut [u64; 12]) -> bool
    requires { Fits b.now t p × (length x.old ≡ 12) }
    ensures { Least (Asked b.now t p) result x.new }
{
    let Table { bounds: mut w } = Table::filled(b, t, p);
    bounds::earliest(&mut w, x)
}

// The rule that alternative a belongs to, or the number of rules where there is none.
pub fn rule_of(b: &[u32], a: usize) -> usize
    ensures { (result ≡ owner 1 b.now 2 2 a) × (result < 4294967296) }
{
    layout::rule_of(b, 1, a)
}

// The trigger of that rule, if it has one.
fn trigger_of(b: &[u32], a: usize) -> Option<Trigger>
    ensures { result ≡ trigger_of b.now a }
{
    let place = number_at(b, 7) + rule_of(b, a) * 4;
    let variable = word_at(b, place);
    if variable == Time::NO_LIMIT {
        return None;
    }
    let value = word_at(b, place + 1);
    Some(Trigger { variable, value })
}

// Where the names and atoms of alternative a are, and how many.
fn places_of(b: &[u32], a: usize) -> Places
    requires { a < 4294967296 }
    ensures { result ≡ places_of b.now a }
{
    let record = number_at(b, 9) + a * 4;
    let name = number_at(b, 11) + 2 * number_at(b, record);
    let names = number_at(b, record + 1);
    let atom = number_at(b, 13) + 6 * number_at(b, record + 2);
    let atoms = number_at(b, record + 3);
    Places {
        name,
        names,
        atom,
        atoms,
    }
}

// ---- the times shown

// The i-th of the times that are shown, of n tokens from token k on: start and end of each, and the plan's end last.
fn shown_at(x: &[u64; 12], k: usize, n: usize, i: usize) -> u64
    requires { (k + n ≤ 5) × (i ≤ 2 * n) }
    ensures { ShownAt x.now k n i result }
{
    if i == 2 * n {
        return x[11];
    }
    x[2 * k + 1 + i]
}

// Puts them at the start of the lent words, as many as there is room for.
fn show(x: &[u64; 12], k: usize, n: usize, times: &mut [u64])
    requires { k + n ≤ 5 }
    ensures { times.new ≡ laid times.old (shown_from (table_times x.now) k n) }
{
    let m = (2 * n + 1).min(times.len());
    for i in 0..m {
        times[i] = shown_at(x, k, n, i);
    }
}

// Whether alternative a of a sound book could be met on any day, with the earliest times if it could.
fn decide(b: &[u32], a: usize, times: &mut [u64]) -> bool
    requires { ((book_fault 1 b.now).number ≡ 0) × (a < count b.now 3) }
    ensures { Decided b.now a result times.old times.new }
{
    let t = trigger_of(b, a);
    let p = places_of(b, a);
    let mut x: [u64; 12] = [0; 12];
    if !least_times(b, t, p, &mut x) {
        return false;
    }
    match t {
        Some(_) => show(&x, 0, p.names + 1, times),
        None => show(&x, 1, p.names, times),
    }
    true
}

// Whether times exist for the tokens of an alternative, numbered over all rules of the book, and the earliest of them: start and end of the
// trigger, if the rule has one, and of each name, and the plan's end last. They are at most 11; a shorter run gets as many as it has room for.
// Yes is `Done` with a = 1, and no with a = 0.
pub fn earliest(book: &[u32], alternative: u32, times: &mut [u64]) -> Answer
    ensures { Told book.now alternative (numbers_of result) times.old times.new }
{
    book::check(book, 1)?;
    let a = alternative as usize;
    if a >= number_at(book, 8) {
        return Err(Refusal::NoSuchAlternative);
    }
    if decide(book, a, times) {
        return Ok(Done { a: 1, b: 0 });
    }
    Ok(Done { a: 0, b: 0 })
}
