// The type that stands for a time: its two marks, a duration later, and a difference against bounds.
#![tactic(auto)]

ghost use Rattle.std.specs.Prelude.{◌≡◌};
ghost use Rattle.clock.specs.Clock.{last_tick, no_limit, later, in_bounds};

// A time, in ticks. It is wide enough for the sum of any durations that lent words can hold, so that nothing wraps.
#[derive(Clone, Copy, Debug, PartialEq, Eq, PartialOrd, Ord)]
pub struct Time {
    pub tick: u64,
}

impl Time {
    // The mark for no limit.
    pub const NO_LIMIT: u32 = 4294967295;
    // The last tick.
    pub const LAST_TICK: u64 = 1000000000;

    // The time d ticks later, or none where that is past the last tick.
    pub fn plus(self, d: u32) -> Option<Time>
        ensures { result ≡ later last_tick self.tick d }
    {
        let t = self.tick;
        if t > Time::LAST_TICK {
            return None;
        }
        let tick = t + d as u64;
        if tick > Time::LAST_TICK {
            return None;
        }
        Some(Time { tick })
    }

    // Whether right minus self, as whole numbers, is at least lower and, unless that is the mark, at most upper.
    pub fn in_bounds(self, right: Time, lower: u32, upper: u32) -> bool
        ensures { result ≡ in_bounds no_limit self.tick right.tick lower upper }
    {
        let left = self.tick;
        let r = right.tick;
        if r < left {
            return false;
        }
        let d = r - left;
        (lower as u64 <= d) & ((upper == Time::NO_LIMIT) | (d <= upper as u64))
    }
}
