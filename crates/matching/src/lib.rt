// Whether an alternative of a rule can be met for one trigger token: the search, from the marks on. The edition e stays a number: `met_at` is
// said of every e.
#![tactic(auto)]

ghost use Rattle.std.specs.Prelude.{◌≡◌, ℕ, List, Some, None, ◌+◌, ◌*◌, ◌<◌, ◌≤◌, ◌^◌, get_or, set};
ghost use Rattle.layout.specs.Layout.{offset};
ghost use Rattle.lines.specs.Lines.{line_of};
ghost use Rattle.lines.specs.Ends.{plan_end};
ghost use Rattle.choice.specs.Met.{put};
ghost use Rattle.choice.specs.Asked.{Tied, met_at};
ghost use Rattle.marks.specs.Marked.{Raised};
ghost use Rattle.matching.specs.Search.{wanted, Tying};
ghost use Rattle.matching.specs.Carried.{handed, ended, Carry, Settled, Keeping, Carried};

use choice::{Alternative, Tokens, put, token_time, triggered};
use lines::Token;
use marks::{Found, Lead};
use words::{number_at, word_at};

// Whether the token at a place has the value that is asked for, and the job if one is.
#[tactic(auto, unfolding(crate::specs::Search::wanted))]
fn wanted(p: &[u32], w: Tokens, place: usize) -> bool
    requires { place < 2 ^ 60 }
    ensures { result ≡ wanted p.now w place }
{
    if word_at(p, place) != w.value {
        return false;
    }
    match w.job {
        None => true,
        Some(job) => lines::job_at(p, place) as u64 == job,
    }
}

// What a search goes by: the book, the plan, the trigger token, the alternative whose names are placed, and the marks to search from. The
// alternative's numbers are in the range of those that are read from a book.
#[derive(Clone, Copy)]
struct Search<'a> {
    book: &'a [u32],
    plan: &'a [u32],
    trigger: Token,
    alternative: Alternative,
    lead: &'a Lead,
    ghost names_fit: { alternative.names < 2 ^ 32 },
    ghost name_fits: { alternative.name < 2 ^ 40 },
    ghost asks_fit: { alternative.ask + 8 * alternative.asks < 2 ^ 60 },
}

impl<'a> Search<'a> {
    ghost use Rattle.matching.specs.Searched.{Led, BegunIn, AlongIn, SourceIn, placeable_in, token_in};

    // The tokens for the name after the first j: from its mark on, or all of its line if it has no mark.
    fn tokens_left(&self, j: usize) -> Tokens
        requires { (j < self.now.alternative.names) × Led self.now }
        ensures { AlongIn self.now j result × SourceIn self.now j result }
    {
        let a = self.alternative;
        let w = choice::tokens_of(self.book, self.plan, a.name + 2 * j);
        let k = j as u32 + 1;
        let count = token_time(&self.lead.rests, 0, k);
        if count == 0 {
            return w;
        }
        let place = token_time(&self.lead.rests, 1, k) as usize;
        let start = token_time(&self.lead.times, 0, k);
        Tokens {
            count,
            place,
            start,
            ..w
        }
    }

    // The same with the job that the name is asked for, c being the choice so far: a token of another job is passed over.
    fn tokens_tied(&self, c: &[u64; 16], j: usize, w: Tokens) -> Tokens
        requires { j + 1 < 2 ^ 32 }
        ensures { Tying self.now.book.now self.now.alternative c.now j w result }
    {
        let job = choice::job_asked(self.book, self.alternative, c, j as u32 + 1);
        Tokens { job, ..w }
    }

    // Whether the n names after the first j can be given tokens, so that all that the alternative asks holds.
    #[cycle(place_try_token_try_tokens)]
    fn place(&self, n: usize, j: usize, c: [u64; 16]) -> bool
        requires { (j + n ≡ self.now.alternative.names) × BegunIn self.now j c × Led self.now }
        ensures { result ≡ placeable_in self.now n j c }
    {
        if !choice::hold_so_far(self.book, self.alternative, &c, j) {
            return false;
        }
        if n == 0 {
            return true;
        }
        let w = self.tokens_tied(&c, j, self.tokens_left(j));
        self.try_tokens(n - 1, w, j, c)
    }

    // The same with one of the tokens left given to the name after the first j; n names come after it.
    #[cycle(place_try_token_try_tokens)]
    fn try_tokens(&self, n: usize, w: Tokens, j: usize, c: [u64; 16]) -> bool
        requires { (j + n + 1 ≡ self.now.alternative.names) × AlongIn self.now j w × BegunIn self.now j c × Tied self.now.book.now self.now.alternative c (j + 1) w.job × Led self.now }
        ensures { result ≡ token_in self.now n j c w }
    {
        let p = self.plan;
        if w.count == 0 {
            return false;
        }
        let end = w.start + word_at(p, w.place + 1) as u64;
        if wanted(p, w, w.place) {
            let job = lines::job_at(p, w.place) as u64;
            if self.try_token(n, w.start, end, job, j, c) {
                return true;
            }
        }
        let next = Tokens {
            count: w.count - 1,
            place: w.place + w.width,
            start: end,
            ..w
        };
        self.try_tokens(n, next, j, c)
    }

    // Whether the token from start to end, of a job, given to the name after the first j, lets the n names after it be placed.
    #[cycle(place_try_token_try_tokens)]
    fn try_token(&self, n: usize, start: u64, end: u64, job: u64, j: usize, c: [u64; 16]) -> bool
        requires { (j + n + 1 ≡ self.now.alternative.names) × BegunIn self.now (j + 1) (put c (j + 1) start end job) × Led self.now }
        ensures { result ≡ placeable_in self.now n (j + 1) (put c (j + 1) start end job) }
    {
        let mut d = c;
        put(&mut d, j + 1, start, end, job);
        self.place(n, j + 1, d)
    }
}

// What was found for an earlier trigger token, for the trigger token t: the marked tokens stay. No marks, if there is no choice any more.
fn handed_on(found: Found, t: Token) -> Option<Lead>
    ensures { result ≡ handed t found }
{
    match found {
        Found::Open(mut m) | Found::NoneNow(mut m) => {
            put(&mut m.times, 0, t.start.tick, t.end.tick, t.job as u64);
            Some(m)
        }
        Found::NoneEver => None,
    }
}

// Raises the marks of an alternative for the trigger token t: those kept from the trigger tokens before it, or new ones.
fn raise_kept(
    b: &[u32],
    p: &[u32],
    last: u64,
    t: Token,
    a: Alternative,
    kept: Option<Found>,
) -> Found
    requires { (a.names ≤ 4) × (a.name < 2 ^ 40) × (a.ask < 2 ^ 40) × (a.asks < 2 ^ 32) × Carry b.now p.now a t kept × (last ≡ plan_end (line_of p.now)) }
    ensures { Raised b.now p.now a t result }
{
    let started = match kept {
        None => marks::start_marks(b, p, last, t, a),
        Some(found) => handed_on(found, t),
    };
    match started {
        Some(m) => marks::raise(b, p, t, a, m),
        None => Found::NoneEver,
    }
}

// Nothing is kept of the next rule's n alternatives. So one room can serve all rules: to clear the whole of it for each shows in the time where
// the rules have nothing else to do.
pub fn forget(kept: &mut [Option<Found>; 64], n: usize)
    ensures { (e : ℕ) → (b p : List ℕ) → (t : Token) → (at : ℕ) → Carried e b p t n at kept.new }
{
    for i in 0..n.min(64) {
        kept[i] = None;
    }
}

// Whether it is kept of alternative number i that it has no choice any more.
#[tactic(auto, unfolding(crate::specs::Carried::ended))]
fn has_ended(kept: &[Option<Found>; 64], i: usize) -> bool
    ensures { result ≡ ended (get_or kept.now i None) }
{
    matches!(kept.get(i), Some(Some(Found::NoneEver)))
}

// What is kept of alternative number i: nothing where there is no place for it.
fn kept_of(kept: &[Option<Found>; 64], i: usize) -> Option<Found>
    ensures { result ≡ get_or kept.now i None }
{
    kept.get(i).copied().flatten()
}

// Keeps what was found of alternative number i, if there is a place for it.
fn keep(kept: &mut [Option<Found>; 64], i: usize, found: Found)
    ensures { kept.new ≡ set kept.old i (Some found) }
{
    if i < kept.len() {
        kept[i] = Some(found);
    }
}

// The marks to search alternative number i from, unless it has no choice for the trigger token t; what was found is kept. An alternative with
// over four names, which no sound book has, is searched without marks.
fn settle(
    b: &[u32],
    p: &[u32],
    last: u64,
    t: Token,
    a: Alternative,
    kept: &mut [Option<Found>; 64],
    i: usize,
) -> Option<Lead>
    requires { (a.name < 2 ^ 40) × (a.ask < 2 ^ 40) × (a.asks < 2 ^ 32) × Carry b.now p.now a t (get_or kept.old i None) × (last ≡ plan_end (line_of p.now)) }
    ensures { Settled b.now p.now a t result × Keeping b.now p.now a t i kept.old kept.new }
{
    if a.names > 4 {
        return Some(Lead {
            times: triggered(last, t),
            rests: [0; 16],
        });
    }
    // asked in place: an alternative that has ended stays so, and to move what is kept of it about would be all that is done
    if has_ended(kept, i) {
        return None;
    }
    let found = raise_kept(b, p, last, t, a, kept_of(kept, i));
    keep(kept, i, found);
    match found {
        Found::Open(m) => Some(m),
        Found::NoneNow(_) | Found::NoneEver => None,
    }
}

// Whether one of the n alternatives from number `first` on is met for the trigger token t: the first alternative and assignment found
// settles it. The plan ends at `last`. `kept` has what was found for the trigger tokens before t, of each alternative.
pub fn met(
    e: usize,
    b: &[u32],
    p: &[u32],
    first: u32,
    n: u32,
    last: u64,
    t: Token,
    kept: &mut [Option<Found>; 64],
) -> bool
    requires { (last ≡ plan_end (line_of p.now)) × Carried e b.now p.now t n (offset b.now 3 + 4 * first) kept.old }
    ensures { (result ≡ met_at e b.now p.now t n (offset b.now 3 + 4 * first)) × Carried e b.now p.now t n (offset b.now 3 + 4 * first) kept.new }
{
    let at = number_at(b, 9) + 4 * first as usize;
    let c = triggered(last, t);
    // a flag, since a loop that a label leaves gives no value
    let mut found = false;
    'settled: for i in 0..n as usize {
        let a = choice::alternative_at(e, b, at + 4 * i);
        let Some(lead) = settle(b, p, last, t, a, kept, i) else {
            continue;
        };
        if a.names == 0 {
            if choice::hold_so_far(b, a, &c, 0) {
                found = true;
                break 'settled;
            }
            continue;
        }
        let s = Search {
            book: b,
            plan: p,
            trigger: t,
            alternative: a,
            lead: &lead,
        };
        let w = s.tokens_tied(&c, 0, s.tokens_left(0));
        let mut place = w.place;
        let mut start = w.start;
        for _ in 0..w.count {
            let end = start + word_at(p, place + 1) as u64;
            if wanted(p, w, place) {
                let job = lines::job_at(p, place) as u64;
                if s.try_token(a.names - 1, start, end, job, 0, c) {
                    found = true;
                    break 'settled;
                }
            }
            start = end;
            place += w.width;
        }
    }
    found
}
