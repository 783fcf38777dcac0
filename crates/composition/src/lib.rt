// Allen's composition: what two relations leave for a third pair, for single relations and for sets of them.
#![tactic(auto)]

ghost use Rattle.std.specs.Prelude.{◌≡◌, ℕ, ◌<◌};
ghost use Rattle.composition.specs.Sets.{chosen};
ghost use Rattle.composition.specs.Table.{pair_set, row_set, compose_sets, converse_set};

// Row p, column q: the set that relations p and q leave.
const COMPOSITION: [[u32; 13]; 13] = [
    [1, 1, 1, 1, 1, 1, 1, 1, 295, 295, 295, 295, 8191],
    [1, 1, 1, 1, 1, 2, 2, 2, 292, 292, 292, 584, 7312],
    [1, 1, 7, 7, 31, 4, 4, 28, 292, 292, 2044, 1168, 7312],
    [1, 2, 4, 8, 16, 4, 8, 16, 292, 584, 1168, 1168, 7312],
    [31, 28, 28, 16, 16, 28, 16, 16, 2044, 1168, 1168, 1168, 7312],
    [1, 1, 7, 7, 31, 32, 32, 224, 256, 256, 1792, 2048, 4096],
    [1, 2, 4, 8, 16, 32, 64, 128, 256, 512, 1024, 2048, 4096],
    [
        31, 28, 28, 16, 16, 224, 128, 128, 1792, 1024, 1024, 2048, 4096,
    ],
    [
        1, 1, 295, 295, 8191, 256, 256, 7936, 256, 256, 7936, 4096, 4096,
    ],
    [
        1, 2, 292, 584, 7312, 256, 512, 7168, 256, 512, 7168, 4096, 4096,
    ],
    [
        31, 28, 2044, 1168, 7312, 1792, 1024, 7168, 1792, 1024, 7168, 4096, 4096,
    ],
    [
        31, 224, 1792, 2048, 4096, 1792, 2048, 4096, 1792, 2048, 4096, 4096, 4096,
    ],
    [
        8191, 7936, 7936, 4096, 4096, 7936, 4096, 4096, 7936, 4096, 4096, 4096, 4096,
    ],
];

// The set that p and q leave; empty where one of them is no relation.
pub fn compose_pair(p: u32, q: u32) -> u32
    ensures { result ≡ pair_set p q }
{
    if p < 13 && q < 13 {
        COMPOSITION[p as usize][q as usize]
    } else {
        0
    }
}

// The union of what a function gives for each relation of a set.
fn union_over<F: Fn(u32) -> u32>(set: u32, part: F) -> u32
    requires { (k : ℕ) → k < 13 → F.pre part k }
    ensures { (f : ℕ → ℕ) → ((k r : ℕ) → k < 13 → F.post part k r → r ≡ f k) → result ≡ chosen set f 13 }
{
    let mut union = 0;
    for k in 0..13 {
        if words::in_set(set, k) {
            union |= part(k);
        }
    }
    union
}

// What p and the relations of t leave.
fn compose_row(p: u32, t: u32) -> u32
    ensures { result ≡ row_set p t }
{
    union_over(t, |q| compose_pair(p, q))
}

// What the relations of s and of t leave: the composition of the two sets.
pub fn compose(s: u32, t: u32) -> u32
    ensures { result ≡ compose_sets s t }
{
    union_over(s, |p| compose_row(p, t))
}

// The converses of the relations of s.
pub fn converse_set(s: u32) -> u32
    ensures { result ≡ converse_set s }
{
    union_over(s, |k| 1 << (12 - k))
}
