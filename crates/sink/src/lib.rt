// One place where words go: each is stored in a room, if it fits there, and compared with a list.
#![tactic(auto)]

ghost use Rattle.std.specs.Prelude.{[], ◌∷◌, ◌≡◌, ◌+◌, ◌<◌, ◌≤◌, ◌^◌, set};
ghost use Rattle.event_list.specs.Events.{action};
ghost use Rattle.event_list.specs.Words.{action_words};
ghost use Rattle.event_list.specs.Sends.{Sends};
ghost use Rattle.sink.specs.Sinks.{SendsTo};

// The list edition whose actions have a job.
const WITH_JOBS: u32 = 2;

// How far words were sent: the next place, and whether all so far are the list's.
#[derive(Clone, Copy)]
pub struct Sent {
    pub at: usize,
    pub same: bool,
}

// Stores a word; past the room's end nothing is stored.
pub fn put_at(room: &mut [u32], at: usize, w: u32)
    ensures { room.new ≡ set room.old at w }
{
    if room.len() <= at {
        return;
    }
    room[at] = w;
}

// Sends a word. By value, so that a row of words is stored into the sink once.
fn send_word(list: &[u32], room: &mut [u32], o: Sent, w: u32) -> Sent
    requires { o.at < 2 ^ 60 }
    ensures { Sends list.now room.old room.new o.at o.same result.at result.same (w ∷ []) }
{
    let at = o.at;
    put_at(room, at, w);
    let x = words::word_at(list, at);
    Sent {
        at: at + 1,
        same: o.same & (x == w),
    }
}

// Where words are sent: the list that they are compared with, the room that they are stored in, and how far they were sent.
#[derive(Drop)]
pub struct Sink<'a> {
    pub list: &'a [u32],
    pub room: &'a mut [u32],
    pub sent: Sent,
}

impl Sink<'_> {
    // Sends a word.
    pub fn send(&mut self, w: u32)
        requires { self.old.sent.at < 2 ^ 60 }
        ensures { SendsTo self.old self.new (w ∷ []) }
    {
        self.sent = send_word(self.list, self.room, self.sent, w);
    }

    // Sends an action: three words, and its job behind them in edition 2. Edition and kind are numbers, since they are words of a list.
    pub fn send_action(&mut self, edition: u32, line: u32, value: u32, kind: u32, job: u32)
        requires { self.old.sent.at < 2 ^ 59 }
        ensures { SendsTo self.old self.new (action_words edition (action line value kind job)) × (self.new.sent.at ≤ self.old.sent.at + 4) }
    {
        // read once: a store to the room might change them, for all that the compiler knows
        let list = self.list;
        let room = &mut *self.room;
        let a = send_word(list, room, self.sent, line);
        let b = send_word(list, room, a, value);
        let c = send_word(list, room, b, kind);
        if edition == WITH_JOBS {
            self.sent = send_word(list, room, c, job);
            return;
        }
        self.sent = c;
    }
}
