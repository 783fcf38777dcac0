// Sends what happens at a moment: on a line, on all lines, and the event.
#![tactic(auto)]

ghost use Rattle.std.specs.Prelude.{◌≡◌, ◌+◌, ◌<◌, ◌≤◌, ◌^◌};
ghost use mathlib.Core.List.{flat_map};
ghost use Rattle.words.specs.Words.{word};
ghost use Rattle.lines.specs.Lines.{job_at};
ghost use Rattle.event_list.specs.Events.{action, event, start_on, by_line};
ghost use Rattle.event_list.specs.Words.{action_words, event_words};
ghost use Rattle.sink.specs.Sinks.{SendsTo};
ghost use Rattle.moments.specs.State.{line_left, lines_left, happens, Small, AllSmall};

use sink::Sink;
use sweep::Stand;

// The kinds of an action: the numbers that a list has, since they are sent as words.
const END: u32 = 0;

const START: u32 = 1;

// Sends the end or the start of the token at a place, on line v. Inlined, and `send_start` too, so that `near` below need not lie in memory.
#[inline]
fn send_token(to: &mut Sink<'_>, plan: &[u32], v: u32, place: usize, kind: u32)
    requires { (to.old.sent.at < 2 ^ 58) × (place < 2 ^ 60) }
    ensures { SendsTo to.old to.new (action_words (word plan.now 0) (action v (word plan.now place) kind (job_at plan.now place))) × (to.new.sent.at ≤ to.old.sent.at + 4) }
{
    let edition = words::word_at(plan, 0);
    let value = words::word_at(plan, place);
    let job = lines::job_at(plan, place);
    to.send_action(edition, v, value, kind, job);
}

// Sends the start of the token that a line is at, if there is one.
#[inline]
fn send_start(to: &mut Sink<'_>, plan: &[u32], v: u32, l: Stand)
    requires { (to.old.sent.at < 2 ^ 57) × Small l }
    ensures { SendsTo to.old to.new (flat_map (action_words (word plan.now 0)) (start_on v (line_left plan.now l))) × (to.new.sent.at ≤ to.old.sent.at + 4) }
{
    if l.left != 0 {
        send_token(to, plan, v, l.place, START);
    }
}

// Sends what happens on line v at the start, or m ticks later: "end before start". `first` and m stand side by side, as `happens` takes them.
fn send_on(to: &mut Sink<'_>, plan: &[u32], v: u32, l: Stand, first: bool, m: u32)
    requires { (to.old.sent.at < 2 ^ 56) × Small l }
    ensures { SendsTo to.old to.new (flat_map (action_words (word plan.now 0)) (happens first m v (line_left plan.now l))) × (to.new.sent.at ≤ to.old.sent.at + 8) }
{
    if first {
        send_start(to, plan, v, l);
        return;
    }
    if l.left == 0 {
        return;
    }
    if l.run != m {
        return;
    }
    send_token(to, plan, v, l.place, END);
    let next = moments::next(plan, l);
    send_start(to, plan, v, next);
}

// Sends what happens on the first n lines, line by line.
fn send_actions(to: &mut Sink<'_>, plan: &[u32], s: [Stand; 16], n: u32, first: bool, m: u32)
    requires { (to.old.sent.at < 2 ^ 55) × (n ≤ 16) × AllSmall s }
    ensures { SendsTo to.old to.new (flat_map (action_words (word plan.now 0)) (by_line (happens first m) 0 (lines_left plan.now s n 0))) × (to.new.sent.at ≤ to.old.sent.at + 128) }
{
    for v in 0..n {
        send_on(to, plan, v, s[v as usize], first, m);
    }
}

// Sends an event: the delay, how many actions, and the actions.
pub fn send_event(to: &mut Sink<'_>, plan: &[u32], s: [Stand; 16], n: u32, first: bool, m: u32)
    requires { (to.old.sent.at < 2 ^ 54) × (n ≤ 16) × AllSmall s }
    ensures { SendsTo to.old to.new (event_words (word plan.now 0) (event m (by_line (happens first m) 0 (lines_left plan.now s n 0)))) × (to.new.sent.at ≤ to.old.sent.at + 130) }
{
    let count = moments::count(s, n as usize, first, m);
    // a sink that no caller sees: how far the words are stays in registers, and is stored once
    let mut near = Sink {
        list: to.list,
        room: &mut *to.room,
        sent: to.sent,
    };
    near.send(m);
    near.send(count);
    send_actions(&mut near, plan, s, n, first, m);
    to.sent = near.sent;
}
