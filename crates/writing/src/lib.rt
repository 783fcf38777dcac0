// The book of a sheet whose choices are listed: its sizes, and its words.
#![tactic(auto)]

ghost use Rattle.std.specs.Prelude.{◌≡◌, ◌+◌, ◌*◌, ◌-◌, ◌^◌, ◌<◌, ◌≤◌, length, get_or};
ghost use Rattle.words.specs.Write.{Wrote};
ghost use Rattle.layout.specs.Layout.{count, offset};
ghost use Rattle.listing.specs.Items.{all_items, alt_of};
ghost use Rattle.listing.specs.Listed.{sizes_from};
ghost use Rattle.writing.specs.Compare.{side, upper, compared, relation_words};
ghost use Rattle.writing.specs.Left.{sizes, count_from, item_names, item_atoms, names_left, atoms_left, rows_left, rules_left, name_count, atom_count};
ghost use Rattle.writing.specs.Whole.{head, tables_by, Ready, Counted};
ghost use Rattle.writing.specs.Book.{translated};
ghost use Rattle.writing.specs.Writing.{HasRoom, WroteTo};

// Where words are written: the lent words, and the place of the next.
#[derive(Drop)]
pub struct Writer<'a> {
    pub words: &'a mut [u32],
    pub at: usize,
}

impl Writer<'_> {
    // Puts a run of words.
    pub fn put(&mut self, run: &[u32])
        requires { HasRoom self.old run.now }
        ensures { WroteTo self.old self.new run.now }
    {
        self.at = words::put(self.words, self.at, run);
    }
}

// How many atoms each relation becomes, by its number; the last three stand for no relation. A table beside COMPARISONS, whose
// rows would else be counted anew for each constraint of each item.
const SIZES: [usize; 16] = [1, 1, 3, 2, 2, 2, 2, 2, 2, 2, 3, 1, 1, 0, 0, 0];

// How many atoms relation x becomes.
fn size(x: usize) -> usize
    requires { x < 16 }
    ensures { (result ≡ get_or sizes x 0) × (result ≤ 3) }
{
    SIZES[x]
}

// How many atoms k relations become, the digits of the code.
fn count_digits(k: usize, code: u64) -> usize
    requires { k < 2 ^ 32 }
    ensures { (result ≡ count_from k code) × (result < 2 ^ 34) }
{
    let mut n = 0;
    let mut left = code;
    for _ in 0..k {
        n += size((left % 16) as usize);
        left /= 16;
    }
    n
}

// How many names an item has.
fn count_names(s: &[u32], item: u64) -> usize
    ensures { (result ≡ length (alt_of s.now item).names) × (result < 2 ^ 32) }
{
    let p = (item % 16384) as usize;
    words::number_at(s, p + 1)
}

// How many atoms an item has.
fn count_atoms(s: &[u32], item: u64) -> usize
    ensures { (result ≡ length (alt_of s.now item).asks) × (result < 2 ^ 34) }
{
    let p = (item % 16384) as usize;
    count_digits(words::number_at(s, p + 3), item / 16384)
}

// How many names and how many atoms there are together.
#[derive(Clone, Copy)]
pub struct Totals {
    pub names: usize,
    pub atoms: usize,
}

// Those of all items.
pub fn count_all(s: &[u32], list: &[u64]) -> Totals
    requires { length list.now ≤ 4096 }
    ensures names_value { (result.names ≡ name_count s.now list.now 0) × (result.atoms ≡ atom_count s.now list.now 0) }
    ensures names_bound { (result.names < 2 ^ 45) × (result.atoms < 2 ^ 47) }
{
    let mut names = 0;
    let mut atoms = 0;
    for item in list.iter() {
        names += count_names(s, *item);
        atoms += count_atoms(s, *item);
    }
    Totals { names, atoms }
}

// The three comparisons of each relation; a comparison is 32 and five bits: left kind, left token, right kind, right token,
// strict. 0 is none, and the last three rows stand for no relation.
const COMPARISONS: [[u32; 3]; 16] = [
    [51, 0, 0],
    [50, 0, 0],
    [35, 45, 55],
    [35, 54, 0],
    [35, 61, 0],
    [34, 55, 0],
    [34, 54, 0],
    [34, 61, 0],
    [41, 55, 0],
    [41, 54, 0],
    [41, 39, 61],
    [56, 0, 0],
    [57, 0, 0],
    [0, 0, 0],
    [0, 0, 0],
    [0, 0, 0],
];

// The left token or the right.
fn token(which: u32, l: u32, r: u32) -> u32
    ensures { result ≡ side which l r }
{
    if which == 0 { l } else { r }
}

// The upper bound of an atom.
fn limit(strict: u32) -> u32
    ensures { result ≡ upper strict }
{
    if strict == 0 {
        0
    } else {
        clock::Time::NO_LIMIT
    }
}

// The atom of a comparison, or nothing.
fn put_comparison(w: &mut Writer<'_>, code: u32, l: u32, r: u32)
    requires { HasRoom w.old (compared code l r) }
    ensures { WroteTo w.old w.new (compared code l r) }
{
    if code == 0 {
        return;
    }
    let a = token(code / 8 % 2, l, r);
    let b = token(code / 2 % 2, l, r);
    let u = limit(code % 2);
    w.put(&[code / 16 % 2, a, code / 4 % 2, b, code % 2, u]);
}

// The atoms of relation x, of the tokens l and r.
fn put_relation(w: &mut Writer<'_>, x: usize, l: u32, r: u32)
    requires { (x < 16) × HasRoom w.old (relation_words x l r) }
    ensures { WroteTo w.old w.new (relation_words x l r) }
{
    for code in COMPARISONS[x].iter() {
        put_comparison(w, *code, l, r);
    }
}

// The names of an item.
fn put_item_names(s: &[u32], item: u64, w: &mut Writer<'_>)
    requires { HasRoom w.old (item_names s.now item) }
    ensures { WroteTo w.old w.new (item_names s.now item) }
{
    let p = (item % 16384) as usize;
    let n = words::number_at(s, p + 1);
    let first = words::number_at(s, 11) + 2 * words::number_at(s, p);
    for i in 0..n {
        let q = first + 2 * i;
        let variable = words::word_at(s, q);
        let value = words::word_at(s, q + 1);
        w.put(&[variable, value]);
    }
}

// Table 4: the names of every item.
fn put_names(s: &[u32], list: &[u64], w: &mut Writer<'_>)
    requires { HasRoom w.old (names_left s.now list.now 0) }
    ensures { WroteTo w.old w.new (names_left s.now list.now 0) }
{
    for item in list.iter() {
        put_item_names(s, *item, w);
    }
}

// The atoms of an item: those of each constraint's relation in turn.
fn put_item_atoms(s: &[u32], item: u64, w: &mut Writer<'_>)
    requires { HasRoom w.old (item_atoms s.now item) }
    ensures { WroteTo w.old w.new (item_atoms s.now item) }
{
    let p = (item % 16384) as usize;
    let k = words::number_at(s, p + 3);
    let first = words::number_at(s, 13) + 3 * words::number_at(s, p + 2);
    let mut code = item / 16384;
    for i in 0..k {
        let q = first + 3 * i;
        let l = words::word_at(s, q);
        let r = words::word_at(s, q + 1);
        put_relation(w, (code % 16) as usize, l, r);
        code /= 16;
    }
}

// Table 5: the atoms of every item.
fn put_atoms(s: &[u32], list: &[u64], w: &mut Writer<'_>)
    requires { HasRoom w.old (atoms_left s.now list.now 0) }
    ensures { WroteTo w.old w.new (atoms_left s.now list.now 0) }
{
    for item in list.iter() {
        put_item_atoms(s, *item, w);
    }
}

// Table 3: a row for each item, with running numbers of names and atoms.
fn put_alternatives(s: &[u32], list: &[u64], w: &mut Writer<'_>)
    requires list_bound { (name_count s.now list.now 0 ≤ 2048) × (atom_count s.now list.now 0 ≤ 2048) }
    requires has { HasRoom w.old (rows_left s.now list.now 0 0 0) }
    ensures { WroteTo w.old w.new (rows_left s.now list.now 0 0 0) }
{
    let mut name = 0;
    let mut atom = 0;
    for item in list.iter() {
        let n = count_names(s, *item);
        let k = count_atoms(s, *item);
        w.put(&[name as u32, n as u32, atom as u32, k as u32]);
        name += n;
        atom += k;
    }
}

// Table 2: a row for each rule, with a running number of alternatives.
fn put_rules(s: &[u32], numbers: &[u32], w: &mut Writer<'_>)
    requires numbers_value { (numbers.now ≡ sizes_from s.now (count s.now 2) (offset s.now 2)) × (length (all_items s.now) ≤ 4096) }
    requires has { HasRoom w.old (rules_left s.now (count s.now 2) 0 (offset s.now 2) 0) }
    ensures { WroteTo w.old w.new (rules_left s.now (count s.now 2) 0 (offset s.now 2) 0) }
{
    let table = words::number_at(s, 7);
    let mut k: u32 = 0;
    for (i, n) in numbers.iter().enumerate() {
        let q = table + 4 * i;
        let v = words::word_at(s, q);
        let x = words::word_at(s, q + 1);
        w.put(&[v, x, k, *n]);
        k += *n;
    }
}

// The header of a book with n alternatives, m names and k atoms: what the sheet says of tables 0 to 2 stays.
fn put_header(s: &[u32], n: usize, m: usize, k: usize, w: &mut Writer<'_>)
    requires { (offset s.now 3 + 4 * n + 2 * m + 6 * k ≤ 16384) × HasRoom w.old (head s.now n m k) }
    ensures { WroteTo w.old w.new (head s.now n m k) }
{
    let o3 = words::number_at(s, 9);
    let o4 = o3 + 4 * n;
    let o5 = o4 + 2 * m;
    let end = o5 + 6 * k;
    w.put(&[
        1,
        end as u32,
        words::word_at(s, 2),
        14,
        words::word_at(s, 4),
        words::word_at(s, 5),
        words::word_at(s, 6),
        words::word_at(s, 7),
        n as u32,
        o3 as u32,
        m as u32,
        o4 as u32,
        k as u32,
        o5 as u32,
    ]);
}

// Tables 2 to 5, one behind the other.
fn put_tables(s: &[u32], list: &[u64], numbers: &[u32], w: &mut Writer<'_>)
    requires ready { Ready s.now list.now numbers.now }
    requires list_bound { (name_count s.now list.now 0 ≤ 2048) × (atom_count s.now list.now 0 ≤ 2048) }
    requires has { HasRoom w.old (tables_by s.now list.now) }
    ensures { WroteTo w.old w.new (tables_by s.now list.now) }
{
    put_rules(s, numbers, w);
    put_alternatives(s, list, w);
    put_names(s, list, w);
    put_atoms(s, list, w);
}

// The whole book, with m names and k atoms: the header, tables 0 and 1 as they stand, and tables 2 to 5.
pub fn put_book(
    s: &[u32],
    list: &[u64],
    numbers: &[u32],
    m: usize,
    k: usize,
    room: &mut [u32],
) -> usize
    requires { Ready s.now list.now numbers.now × Counted s.now list.now m k room.old }
    ensures { Wrote room.old room.new 0 result (translated s.now) }
{
    let mut w = Writer { words: room, at: 0 };
    put_header(s, list.len(), m, k, &mut w);
    w.put(&s[14..words::number_at(s, 7)]);
    put_tables(s, list, numbers, &mut w);
    w.at
}
