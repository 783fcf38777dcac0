// Sends the list of a plan: all events in time order, behind the list's first three words.
#![tactic(auto)]

ghost use Rattle.std.specs.Prelude.{◌≡◌, true, ◌+◌, ◌<◌, ◌≤◌, ◌^◌, length};
ghost use mathlib.Core.List.{flat_map};
ghost use Rattle.words.specs.Words.{word};
ghost use Rattle.event_list.specs.Events.{sweep, plan_ticks, events_of};
ghost use Rattle.event_list.specs.Words.{event_words};
ghost use Rattle.event_list.specs.Plans.{plan_lines, list_of};
ghost use Rattle.event_list.specs.Sends.{Sends};
ghost use Rattle.moments.specs.State.{lines_left, AllSmall};
ghost use Rattle.sink.specs.Sinks.{SendsTo};
ghost use Rattle.listed.specs.Ready.{Ready, Sized};

use sink::{Sent, Sink};
use sweep::Stand;

// How long a list is: its words, which is the place behind them, and its events.
#[derive(Clone, Copy)]
pub struct Swept {
    pub at: usize,
    pub events: usize,
}

// Sends the events from here on, of n lines with at most so many ticks left, and counts them.
fn send_rest(to: &mut Sink<'_>, plan: &[u32], s: [Stand; 16], n: u32, ticks: u32) -> u32
    requires { (to.old.sent.at < 2 ^ 53) × (n ≤ 16) × AllSmall s }
    ensures { SendsTo to.old to.new (flat_map (event_words (word plan.now 0)) (sweep ticks (lines_left plan.now s n 0))) × (result ≡ length (sweep ticks (lines_left plan.now s n 0))) × (result ≤ ticks) }
{
    let mut t = s;
    for events in 0..ticks {
        let left = ticks - events;
        let m = moments::soonest(t, n as usize, left);
        if m == 0 {
            return events;
        }
        sending::send_event(to, plan, t, n, false, m);
        // by a name of its own: the check doesn't cover a call whose array goes right into `t`
        let next = moments::later(plan, t, n as usize, m);
        t = next;
    }
    ticks
}

// Sends all events of a plan of n lines, and counts them.
fn send_events(to: &mut Sink<'_>, plan: &[u32], n: u32) -> usize
    requires { (to.old.sent.at < 2 ^ 52) × Ready plan.now n }
    ensures { SendsTo to.old to.new (flat_map (event_words (word plan.now 0)) (events_of (plan_lines plan.now))) × (result ≡ length (events_of (plan_lines plan.now))) × (result < 2 ^ 32) }
{
    let ticks = lines::plan_end(plan) as u32;
    if ticks == 0 {
        return 0;
    }
    let s = moments::begin(plan, n as usize);
    sending::send_event(to, plan, s, n, true, 0);
    let rest = send_rest(to, plan, s, n, ticks);
    rest as usize + 1
}

// The first pass: how many words the list has, and how many events.
pub fn size_of(plan: &[u32], n: u32) -> Swept
    requires { Ready plan.now n }
    ensures { Sized plan.now result × (result.at < 2 ^ 32) × (result.events < 2 ^ 32) }
{
    let list = [0u32; 1];
    let mut room = [0u32; 1];
    let mut to = Sink {
        list: &list,
        room: &mut room,
        sent: Sent { at: 3, same: true },
    };
    let events = send_events(&mut to, plan, n);
    Swept {
        at: to.sent.at,
        events,
    }
}

// The second pass: sends the list, whose size is known.
pub fn send_list(list: &[u32], room: &mut [u32], plan: &[u32], n: u32, size: Swept) -> Sent
    requires { Ready plan.now n × Sized plan.now size × (size.at < 2 ^ 32) × (size.events < 2 ^ 32) }
    ensures { Sends list.now room.old room.new 0 true result.at result.same (list_of plan.now) }
{
    let edition = words::word_at(plan, 0);
    let mut to = Sink {
        list,
        room,
        sent: Sent { at: 0, same: true },
    };
    to.send(edition);
    to.send(size.at as u32);
    to.send(size.events as u32);
    send_events(&mut to, plan, n);
    to.sent
}
