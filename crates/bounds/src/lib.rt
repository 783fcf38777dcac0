// The earliest times that meet lower bounds between twelve times. Time 0 is the constant 0.
//
// The bounds are a lent table of 144 numbers, at i * 12 + j the bound from time i to time j: 0 if there is none, else ORIGIN plus by how much
// time j is at least after time i (which may be below 0). The times are passed from the last to the first: through time k, each bound between
// two times below k is raised to what the bounds from the one to k and from k to the other imply. Then each time, from the first to the last, is
// the least that the bounds from the times before it allow.
#![tactic(auto)]

ghost use Rattle.std.specs.Prelude.{◌≡◌, Bool, true, false, ℕ, ◌+◌, ◌*◌, ◌≤◌, ◌<◌, length};
ghost use Rattle.bounds.specs.Bounds.{entry, Near, reach, Within, Floored, times, Earliest};
ghost use Rattle.bounds.specs.Steps.{wide, late, Join, Ready, RaisedOne, RaisedRow, RaisedRows, Closed, Tested, Later, Reached, First, Fit, far};

// The number that stands for a bound of 0.
pub const ORIGIN: u64 = 17592186044416;

// The time b, or the later one that the bound e from the time a asks for.
fn later(b: u64, a: u64, e: u64) -> u64
    requires { (b ≤ late) × (a ≤ late) × (e ≤ wide) }
    ensures { Later b a e result }
{
    if e == 0 {
        b
    } else {
        b.max((a + e).saturating_sub(ORIGIN))
    }
}

// The bound e, raised to what the bounds a and b imply together.
fn join(e: u64, a: u64, b: u64) -> u64
    requires { (e ≤ wide) × (a ≤ wide) × (b ≤ wide) }
    ensures { Join e a b result }
{
    if a == 0 { e } else { later(e, a, b) }
}

// Raises the bound from i to j through k.
fn raise(w: &mut [u64; 144], k: usize, i: usize, j: usize)
    requires { Ready k w.old × (i < k) × (j < k) }
    ensures { RaisedOne k i j w.old w.new }
{
    let place = i * 12 + j;
    let left = i * 12 + k;
    let right = k * 12 + j;
    let e = join(w[place], w[left], w[right]);
    w[place] = e;
}

// Raises the bounds from i to every time below k.
fn raise_row(w: &mut [u64; 144], k: usize, i: usize)
    requires { Ready k w.old × (i < k) }
    ensures { RaisedRow k i k w.old w.new }
{
    for j in 0..k {
        raise(w, k, i, j);
    }
}

// Raises the bounds between all times below k.
fn raise_rows(w: &mut [u64; 144], k: usize)
    requires { Ready k w.old }
    ensures { RaisedRows k k w.old w.new }
{
    for i in 0..k {
        raise_row(w, k, i);
    }
}

// Raises every bound to what the bounds imply together.
fn close(w: &mut [u64; 144])
    requires { (length w.old ≡ 144) × Within (reach 12) w.old }
    ensures { Closed w.old w.new }
{
    for k in (1..12).rev() {
        raise_rows(w, k);
    }
}

// Whether no time would have to be later than itself.
fn possible(w: &[u64; 144]) -> bool
    ensures { Tested w.now result }
{
    (0..12).all(|k| w[k * 12 + k] <= ORIGIN)
}

// The least that the bounds from the times before it allow for time k.
fn least_time(w: &[u64; 144], x: &[u64; 12], k: usize) -> u64
    requires { (1 ≤ k) × (k < 12) × Within far w.now × Floored w.now × First w.now k (times x.now) }
    ensures { Reached w.now k k (times x.now) result }
{
    let mut best = w[k] - ORIGIN;
    for i in 1..k {
        best = later(best, x[i], w[i * 12 + k]);
    }
    best
}

// Puts the least times that a closed table allows.
fn put_times(w: &[u64; 144], x: &mut [u64; 12])
    requires { Fit w.now × (length x.old ≡ 12) }
    ensures { First w.now 12 (times x.new) }
{
    x[0] = 0;
    for k in 1..12 {
        x[k] = least_time(w, x, k);
    }
}

// Whether there are times that meet the bounds of w, and the earliest in x if there are; x is as it was if not. The table is closed.
pub fn earliest(w: &mut [u64; 144], x: &mut [u64; 12]) -> bool
    requires { (length w.old ≡ 144) × (length x.old ≡ 12) × Within (reach 12) w.old × Floored w.old }
    ensures { Earliest w.old result x.old x.new }
{
    close(w);
    if possible(w) {
        put_times(w, x);
        return true;
    }
    false
}
