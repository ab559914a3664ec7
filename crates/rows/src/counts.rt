// Counts over the places of one sequence: in how many ways the parts before one can be placed so that it may start there. A row of
// bits says where those are that go on.
ghost use Rattle.std.specs.Prelude.{not, [], ◌∷◌, ◌≡◌, ℕ, ◌+◌, ◌-◌, ◌*◌, ◌/◌, ◌%◌, ◌^◌, ◌≤◌, ◌<◌, eqb, length, take, get_or, replicate};
ghost use Rattle.rules.specs.Lists.{if, sum};
ghost use Rattle.rows.specs.Bits.{held};
ghost use Rattle.rows.specs.Flags.{count_most, ago, recent, around, back, added, has_left, masked};
ghost use Rattle.rows.specs.Words.{behind_word};

use super::gap::Reach;
use super::set_bits::SetBits;
use super::words::{self, Shift};

// The words of a stretch: so many of a long row are looked at together.
const STRETCH: usize = 16;

// The count, where the bit is 1, and else 0. `pick` in matching is its like for a bool: each a line, and a generic below both no plainer.
fn when(bit: u64, count: u64) -> u64
    ensures { result ≡ if (eqb bit 1) count 0 }
{
    if bit == 1 { count } else { 0 }
}

// What stands `d` places before `o`, a count or a word of a row; 0 where there is none.
fn before(list: &[u64], o: usize, d: usize) -> u64
    requires { o < length list.now + d }
    ensures { result ≡ ago list.now o d }
{
    if d <= o { list[o - d] } else { 0 }
}

// A row, and counts that have its words: where it has a bit, none is so large that those of a gap could not be added.
#[derive(Clone, Copy)]
struct Ways<'a> {
    row: &'a [u64],
    counts: &'a [u64],
    ghost inside: { length counts.now ≤ 64 * length row.now },
    ghost few: { (i : ℕ) → get_or (masked (held row.now) counts.now) i 0 ≤ count_most },
}

// The count that stands `d` places before `o`, if the row has a bit there, and else 0.
fn held_before(ways: Ways, o: usize, d: usize) -> u64
    requires { (o ≤ length ways.counts.now) × (1 ≤ d) }
    ensures { result ≡ ago (masked (held ways.entry.row.now) ways.entry.counts.now) o d }
{
    if o < d {
        return 0;
    }
    let p = o - d;
    when((ways.row[p / 64] >> (p % 64)) & 1, ways.counts[p])
}

// The sum of the `count` counts that stand `near` places before `o` and further back, those at which the row has a bit.
fn window(ways: Ways, o: usize, reach: Reach) -> u64
    requires { o ≤ length ways.counts.now }
    ensures { result ≡ recent (masked (held ways.entry.row.now) ways.entry.counts.now) o reach.apart.near reach.apart.count }
{
    let mut total: u64 = 0;
    for k in 0..reach.apart.count {
        total += held_before(ways, o, reach.apart.near + k);
    }
    total
}

// Word `q` of a row shifted up by `d` places.
fn shifted(row: &[u64], d: usize, q: usize) -> u64
    requires { q < length row.now }
    ensures { result ≡ behind_word (d / 64) (d % 64) row.now q }
{
    let e = d / 64;
    let by = Shift { places: d % 64 };
    words::up(by, before(row, q, e + 1), before(row, q, e))
}

// Opens a gap at the places of one word, those from `from` on: each gets the counts of all the places that reach it and at which the row
// has a bit, added. It goes from the last place to the first, so that what is still to be read is not written yet, and one sum slides
// along: `total` is that past the last place, and the answer that at `from`. Most often no place comes into reach in a word and none is
// gone from it: then the sum stays. Here and below, what `Ways` holds stays in clauses: with `counts` as a `&mut` it would want one more,
// that this is the caller's buffer still.
fn slide(row: &[u64], reach: Reach, from: usize, total: u64, counts: &mut [u64]) -> u64
    requires from_in_bounds { (from < length counts.old) × (from % 64 ≡ 0) × (length counts.old ≤ from + 64) × (length counts.old ≤ 64 * length row.now) }
    requires total_value { total ≡ recent (masked (held row.now) counts.old) (length counts.old) reach.apart.near reach.apart.count }
    requires by_index { (i : ℕ) → get_or (masked (held row.now) counts.old) i 0 ≤ count_most }
    ensures value { result ≡ recent (masked (held row.now) counts.old) from reach.apart.near reach.apart.count }
    ensures counts_after { counts.new ≡ back (around (masked (held row.now) counts.old) reach.apart.near reach.apart.count) from counts.old }
{
    let far = reach.apart.near + reach.apart.count;
    let come = shifted(row, reach.apart.near - 1, from / 64);
    let gone = shifted(row, far - 1, from / 64);
    if come | gone == 0 {
        counts[from..].fill(total);
        return total;
    }
    let mut sum = total;
    for o in (from..counts.len()).rev() {
        let b = o - from;
        sum = sum + when((gone >> b) & 1, before(counts, o + 1, far))
            - when((come >> b) & 1, before(counts, o + 1, reach.apart.near));
        counts[o] = sum;
    }
    sum
}

// A row, that row with a gap opened, and the gap.
#[derive(Clone, Copy)]
struct Opened<'a> {
    row: &'a [u64],
    opened: &'a [u64],
    reach: Reach,
    ghost same: { length opened.now ≡ length row.now },
}

// The same, at once where the opened row has no bit in that word: nothing reaches its places, and its counts stay what they are, for they
// are not read.
fn lead_word(at: Opened, from: usize, total: u64, counts: &mut [u64]) -> u64
    requires from_in_bounds { (from < length counts.old) × (from % 64 ≡ 0) × (length counts.old ≤ from + 64) × (length counts.old ≤ 64 * length at.row.now) }
    requires total_value { 0 < get_or at.opened.now (from / 64) 0 → total ≡ recent (masked (held at.row.now) counts.old) (length counts.old) at.reach.apart.near at.reach.apart.count }
    requires by_index { (i : ℕ) → get_or (masked (held at.row.now) counts.old) i 0 ≤ count_most }
    requires by_index_2 { (p : ℕ) → p < length counts.old → get_or (held at.opened.now) p 0 ≡ 0 → recent (masked (held at.row.now) counts.old) p at.reach.apart.near at.reach.apart.count ≡ 0 }
    ensures value { result ≡ recent (masked (held at.entry.row.now) counts.old) from at.entry.reach.apart.near at.entry.reach.apart.count }
    ensures counts_unchanged { take from counts.new ≡ take from counts.old }
    ensures counts_after { masked (held at.entry.opened.now) counts.new ≡ back (around (masked (held at.entry.row.now) counts.old) at.entry.reach.apart.near at.entry.reach.apart.count) from (masked (held at.entry.opened.now) counts.old) }
{
    let opened = at.opened;
    if opened[from / 64] == 0 {
        return 0;
    }
    slide(at.row, at.reach, from, total, counts)
}

// The sum past the last place, if the last word will need it: if the opened row has a bit there.
fn sum_past(at: Opened, counts: &[u64]) -> u64
    requires counts_len_bound { length counts.now ≤ 64 * length at.row.now }
    requires by_index { (i : ℕ) → get_or (masked (held at.row.now) counts.now) i 0 ≤ count_most }
    ensures { 0 < get_or at.entry.opened.now ((length counts.now - 1) / 64) 0 → result ≡ recent (masked (held at.entry.row.now) counts.now) (length counts.now) at.entry.reach.apart.near at.entry.reach.apart.count }
{
    let to = counts.len();
    if to == 0 {
        return 0;
    }
    let opened = at.opened;
    if opened[(to - 1) / 64] == 0 {
        return 0;
    }
    let row = at.row;
    window(Ways { row, counts }, to, at.reach)
}

// Opens a gap after the counts at which a row has a bit. The other row is that row with the gap opened: only where a word of it has a bit
// are counts written, word by word from the last to the first.
pub fn lead(row: &[u64], opened: &[u64], reach: Reach, counts: &mut [u64])
    requires counts_len_bound { (length counts.old ≤ 64 * length row.now) × (length opened.now ≡ length row.now) }
    requires by_index { (i : ℕ) → get_or (masked (held row.now) counts.old) i 0 ≤ count_most }
    requires by_index_2 { (p : ℕ) → get_or (held opened.now) p 0 ≡ 0 → get_or (added reach.apart.near (reach.apart.near + reach.apart.count - 1) (masked (held row.now) counts.old)) p 0 ≡ 0 }
    ensures { masked (held opened.now) counts.new ≡ added reach.apart.near (reach.apart.near + reach.apart.count - 1) (masked (held row.now) counts.old) }
{
    let at = Opened { row, opened, reach };
    let mut total = sum_past(at, counts);
    let mut to = counts.len();
    // No `for`: one over the words has a value more to hold while the sum slides, and takes 15.6 in 100 more instructions.
    while 0 < to {
        let from = (to - 1) / 64 * 64;
        total = lead_word(at, from, total, &mut counts[..to]);
        to = from;
    }
}

// Writes 1 to the counts of one word, if it has a bit.
fn ones_word(word: u64, counts: &mut [u64])
    requires { length counts.old ≤ 64 }
    ensures { masked (held (word ∷ [])) counts.new ≡ masked (held (word ∷ [])) (replicate (length counts.old) 1) }
{
    if word != 0 {
        counts.fill(1);
    }
}

// One way for each place at which a row has a bit, written word by word where there is one.
pub fn ones(row: &[u64], counts: &mut [u64])
    requires { length counts.old ≤ 64 * length row.now }
    ensures { masked (held row.now) counts.new ≡ masked (held row.now) (replicate (length counts.old) 1) }
{
    let n = counts.len();
    for q in 0..n.div_ceil(64) {
        let from = 64 * q;
        let to = (from + 64).min(n);
        ones_word(row[q], &mut counts[from..to]);
    }
}

// Whether no bit of some words is set.
fn empty(words: &[u64]) -> bool
    ensures { result ≡ not (has_left words.now) }
{
    words.iter().fold(0, |all, word| all | *word) == 0
}

// The sum of the counts at which a word has a bit: its lowest bit is for the first.
fn add_word(word: u64, counts: &[u64]) -> u64
    requires { (length counts.now ≤ 64) × (word < 2 ^ length counts.now) × (sum (masked (held (word ∷ [])) counts.now) < 2 ^ 64) }
    ensures { result ≡ sum (masked (held (word ∷ [])) counts.now) }
{
    let mut total: u64 = 0;
    for place in SetBits(word) {
        total += counts[place as usize];
    }
    total
}

// Words of a row that are side by side, and the counts of their places. Only the last word may have fewer than 64, and no bit past them.
#[derive(Clone, Copy)]
struct Stretch<'a> {
    row: &'a [u64],
    counts: &'a [u64],
    ghost most: { 64 * length row.now ≤ length counts.now + 63 },
    ghost least: { length counts.now ≤ 64 * length row.now },
    ghost dark: { (p : ℕ) → length counts.now ≤ p → get_or (held row.now) p 0 ≡ 0 },
    ghost small: { sum (masked (held row.now) counts.now) < 2 ^ 64 },
}

// The sum of the counts of the places at which some words of a row have a bit, word by word.
fn add_words(part: Stretch) -> u64
    ensures { result ≡ sum (masked (held part.entry.row.now) part.entry.counts.now) }
{
    let row = part.row;
    let counts = part.counts;
    let mut total: u64 = 0;
    // By index: a `zip` with `chunks` takes twice the instructions for a word that is empty, as most are.
    for q in 0..row.len() {
        let from = 64 * q;
        let to = (from + 64).min(counts.len());
        total += add_word(row[q], &counts[from..to]);
    }
    total
}

// The same, at once where all the words are empty.
fn add_stretch(part: Stretch) -> u64
    ensures { result ≡ sum (masked (held part.entry.row.now) part.entry.counts.now) }
{
    if empty(part.row) {
        return 0;
    }
    add_words(part)
}

// The sum of the counts of the places at which a row has a bit. In a long sequence most words are empty, and so are most stretches of
// them: those are passed over.
pub fn add(row: &[u64], counts: &[u64]) -> u64
    requires row_in_bounds { (64 * length row.now ≤ length counts.now + 63) × (length counts.now ≤ 64 * length row.now) }
    requires by_index { (p : ℕ) → length counts.now ≤ p → get_or (held row.now) p 0 ≡ 0 }
    requires counts_bound { sum (masked (held row.now) counts.now) < 2 ^ 64 }
    ensures { result ≡ sum (masked (held row.now) counts.now) }
{
    let mut row = row;
    let mut counts = counts;
    let mut total: u64 = 0;
    // No `for`: it goes from stretch to stretch, and what is left of the row and of the counts is cut as it goes.
    while let Some((stretch, others)) = row.split_first_chunk::<STRETCH>() {
        let (near, far) = counts.split_at(counts.len().min(64 * STRETCH));
        total += add_stretch(Stretch {
            row: stretch,
            counts: near,
        });
        row = others;
        counts = far;
    }
    total + add_words(Stretch { row, counts })
}
