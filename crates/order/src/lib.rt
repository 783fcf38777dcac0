// Books that speak only of order, and a second judge that replaces start and end times by their ranks before it tests rules.
#![tactic(auto)]

ghost use Rattle.std.specs.Prelude.{◌≡◌, ◌+◌, ◌<◌, ◌≤◌, ◌^◌, length};
ghost use Rattle.answers.specs.Numbers.{numbers_of};
ghost use Rattle.words.specs.Words.{word};
ghost use Rattle.book.specs.Rules.{atom_at};
ghost use Rattle.order.specs.Profile.{timeless, order_bounds, order_atom, all_order, order_only};
ghost use Rattle.order.specs.Numbered.{FirstFrom};
ghost use Rattle.order.specs.Ranked.{rank_line, ranked_plan};
ghost use Rattle.order.specs.Judged.{judged_by_order};
ghost use Rattle.lines.specs.Lines.{line_of};
ghost use Rattle.sweep.specs.Sweeps.{Sweeps, Moments};
ghost use Rattle.verdict.specs.Judged.{examined};
ghost use Rattle.verdict.specs.Survey.{placed_rules, placed_fault};

use answers::{Answer, Refusal};
use clock::Time;
use words::{Record, number_at, word_at};

// Whether a term of this kind is no fixed time: neither a time point nor the end of the plan. The kind is any word of a book, as `timeless`
// has it, and no enum.
#[tactic(auto, unfolding(crate::specs::Profile::timeless))]
fn timeless(kind: u32) -> bool
    ensures { result ≡ timeless kind }
{
    (kind != 2) & (kind != 3)
}

// Whether these bounds say no more than "not after", "before" or "at".
#[tactic(auto, unfolding(crate::specs::Profile::order_bounds))]
fn order_bounds(lower: u32, upper: u32) -> bool
    ensures { result ≡ order_bounds lower upper }
{
    ((lower == 0) & (upper == Time::NO_LIMIT))
        | ((lower == 1) & (upper == Time::NO_LIMIT))
        | ((lower == 0) & (upper == 0))
}

// Whether an atom speaks only of order.
fn order_atom(atom: Record) -> bool
    ensures { result ≡ order_atom (atom_at atom.entry.words.now atom.entry.place) }
{
    let left = timeless(atom.word(0));
    let right = timeless(atom.word(2));
    let bounds = order_bounds(atom.word(4), atom.word(5));
    left & right & bounds
}

// Whether every atom of table 5 does.
fn all_order(b: &[u32]) -> bool
    ensures { result ≡ all_order b.now }
{
    let first = number_at(b, 13);
    for i in 0..number_at(b, 12) {
        let atom = Record {
            words: b,
            place: first + 6 * i,
        };
        if !order_atom(atom) {
            return false;
        }
    }
    true
}

// Whether a book is sound and speaks only of order.
pub fn order_only(book: &[u32]) -> bool
    ensures { result ≡ order_only book.now }
{
    book::check(book, 1).is_ok() && all_order(book)
}

// The number of the first time from number k on that isn't before t, or of the last one.
fn number_from(times: &[u32], last: usize, k: usize, t: u32) -> usize
    requires { (k ≤ last) × (last < 2 ^ 60) }
    ensures { FirstFrom times.now last k t result }
{
    (k..last).find(|i| word_at(times, *i) >= t).unwrap_or(last)
}

// Puts the durations by rank of line v into the room, which has the plan's words. The times are all endpoints in order.
fn rank_line(p: &[u32], times: &[u32], last: usize, room: &mut [u32], v: usize)
    requires { Sweeps p.now × Moments p.now times.now last × (last < 8192) × (v < word p.now 2) × (length room.old ≡ length p.now) }
    ensures { room.new ≡ rank_line p.now room.old v }
{
    let w = lines::token_width(p);
    let first = sweep::first_stand(p, v);
    let mut end: u32 = 0;
    let mut k = 0;
    for i in 0..first.left as usize {
        let place = first.place + w * i;
        end += word_at(p, place + 1);
        let r = number_from(times, last, k, end);
        room[place + 1] = (r - k) as u32;
        k = r;
    }
}

// The same for all lines.
fn rank_lines(p: &[u32], times: &[u32], last: usize, room: &mut [u32])
    requires { Sweeps p.now × Moments p.now times.now last × (last < 8192) × (room.old ≡ p.now) }
    ensures { room.new ≡ ranked_plan p.now }
{
    for v in 0..number_at(p, 2) {
        rank_line(p, times, last, room, v);
    }
}

// Replaces the durations in the room, which has the plan's words, by differences of ranks.
fn rank_plan(p: &[u32], room: &mut [u32])
    requires { Sweeps p.now × (room.old ≡ p.now) }
    ensures { room.new ≡ ranked_plan p.now }
{
    let mut times = [0u32; 8192];
    let last = sweep::moments(p, &mut times);
    rank_lines(p, &times, last, room);
}

// What the rules come to on the plan by ranks.
fn examine_ranked(book: &[u32], plan: &[u32]) -> Answer
    requires { Sweeps plan.now × (examined (line_of (ranked_plan plan.now)) (placed_rules 1 book.now) < 2 ^ 32) }
    ensures { numbers_of result ≡ placed_fault 1 book.now (ranked_plan plan.now) }
{
    let mut room = [0u32; 16384];
    let m = plan.len();
    room[..m].copy_from_slice(plan);
    rank_plan(plan, &mut room[..m]);
    verdict::examine(1, book, &room[..m])
}

// The answer for a book that speaks only of order and a plan: start and end times are replaced by their ranks before rules are tested.
pub fn judge_by_order(book: &[u32], plan: &[u32]) -> Answer
    ensures { numbers_of result ≡ judged_by_order book.now plan.now }
{
    book::check(book, 1)?;
    if !all_order(book) {
        return Err(Refusal::NotOrderOnly);
    }
    plan::check(book, plan)?;
    examine_ranked(book, plan)
}
