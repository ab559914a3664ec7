// The letters' rows: those of the four letters of a sequence, and from them those of all letters that a motif may have.
ghost use Rattle.std.specs.Prelude.{true, List, ◌≡◌, ℕ, ◌+◌, ◌-◌, ◌*◌, ◌/◌, ◌%◌, ◌≤◌, ◌<◌, eqb, length, take, get_or, set};
ghost use Rattle.rules.specs.Letters.{letter, is_letter};
ghost use Rattle.rules.specs.Limits.{letter_bases, letter_digits};
ghost use Rattle.rules.specs.Lists.{if};
ghost use Rattle.rules.specs.Profile.{base_of};
ghost use Rattle.matching.specs.Path.{letter_shifts, row_slot, BaseRows, FromBases, Letters, TestsLast};
ghost use Rattle.rows.specs.Bases.{word_of};
ghost use Rattle.rows.specs.Bits.{held};
ghost use Rattle.rows.specs.Rows.{lettered};
ghost use Rattle.rows.specs.Set.{row_words, between, shifted_at, Filled, Offsets};

use super::made::{Made, Plan};
use super::{BASES, DIGITS, WORDS};
use rows::words::{Bases, Shift};
use rows::{BITS, shift, words};
use rules::{Letter, Offset, Place, Profile, SequenceSet};

// Word `q` of each letter's row, in its slot for the first place of a component. Here and below, that the table has four rows stays a
// clause: it may have more, and of such a one the first four as an array would be an `Option`.
fn put_words(q: usize, bases: Bases, standing: &mut [[u64; WORDS]])
    requires { (q < row_words) × (letter_bases ≤ length standing.old) }
    ensures by_index { (x : ℕ) → x < letter_bases → row_slot x standing.new ≡ set (row_slot x standing.old) q (word_of bases x) }
    ensures standing_len_unchanged { length standing.new ≡ length standing.old }
{
    standing[0][q] = bases.a;
    standing[1][q] = bases.c;
    standing[2][q] = bases.g;
    standing[3][q] = bases.t;
}

// The words of one sequence, from `from` up to `to`, of all letters' rows: 64 of its letters at a time, for all four at once.
fn sequence_slots(sequence: &[u8], from: usize, to: usize, standing: &mut [[u64; WORDS]])
    requires by_index { (i : ℕ) → i < length sequence.now → is_letter (get_or sequence.now i 0) ≡ true }
    requires from_le_to { (from ≤ to) × (to ≤ row_words) × (length sequence.now ≤ 64 * (to - from)) × (64 * (to - from) ≤ length sequence.now + 63) }
    requires in_bounds { letter_bases ≤ length standing.old }
    ensures by_index_2 { (x : ℕ) → x < letter_bases → take from (row_slot x standing.new) ≡ take from (row_slot x standing.old) }
    ensures by_index_3 { (x : ℕ) → x < letter_bases → held (between from to (row_slot x standing.new)) ≡ lettered eqb (letter x) sequence.now (64 * (to - from)) }
    ensures standing_len_unchanged { length standing.new ≡ length standing.old }
{
    let n = sequence.len();
    let count = to - from;
    for q in 0..count {
        let a = BITS * q;
        let e = (a + BITS).min(n);
        let bases = words::letter_words(&sequence[a..e]);
        put_words(from + q, bases, standing);
    }
}

// The rows of the four letters of a sequence, in the first slots.
pub fn letter_slots(plan: &Plan, offsets: &[u32], standing: &mut [[u64; WORDS]])
    requires offsets { Offsets plan.now.layout.lengths.now offsets.now }
    requires in_bounds { letter_bases ≤ length standing.old }
    ensures standing_len_unchanged { length standing.new ≡ length standing.old }
    ensures base_rows { BaseRows plan.now.layout.lengths.now plan.now.letters.now standing.new }
{
    for k in 0..plan.layout.lengths.len() {
        let a = offsets[k] as usize;
        let e = offsets[k + 1] as usize;
        let (from, to) = plan.layout.words(k);
        let sequence = SequenceSet::part(plan.letters, Offset(a), Offset(e));
        sequence_slots(sequence, from, to, standing);
    }
}

// A word where a base set has a base, and else none.
fn pick(on: bool, word: u64) -> u64
    ensures { result ≡ if on word 0 }
{
    if on { word } else { 0 }
}

// The row of a motif's letter, from those of the four letters of a sequence: where one stands that the letter fits.
pub fn letter_row(x: u64, bases: &[[u64; WORDS]], row: &mut [u64; WORDS])
    requires { letter_bases ≤ length bases.now }
    ensures from_bases { FromBases bases.now x row.new }
{
    let set = Letter::base_set(x);
    let a = Letter::has_base(set, 0);
    let c = Letter::has_base(set, 1);
    let g = Letter::has_base(set, 2);
    let t = Letter::has_base(set, 3);
    for q in 0..WORDS {
        let one = pick(a, bases[0][q]) | pick(c, bases[1][q]);
        let other = pick(g, bases[2][q]) | pick(t, bases[3][q]);
        row[q] = one | other;
    }
}

// Slot `s` of an exact search, past those for the first place: the row of its letter for the first place, shifted. `work` is lent for that.
fn later_slot(plan: &Plan, s: usize, work: &mut [u64; WORDS], standing: &mut [[u64; WORDS]])
    requires { (letter_bases ≤ s) × (s < letter_shifts * letter_bases) × (s < length standing.old) }
    ensures standing_unchanged { (take s standing.new ≡ take s standing.old) × (length standing.new ≡ length standing.old) }
    ensures filled { Filled (λ _. true) (shifted_at (s / letter_bases) plan.now.layout.lengths.now (row_slot (s % letter_bases) standing.old)) plan.now.layout.lengths.now (row_slot s standing.new) (length plan.now.layout.lengths.now) }
{
    *work = standing[s % BASES];
    let by = Shift { places: s / BASES };
    shift::shift_all(&plan.layout, by, work, &mut standing[s]);
}

// Slot `s` of a mixed search, past those of the four letters of a sequence: the row of letter `s`. `work` is lent for it.
fn mixed_slot(s: usize, work: &mut [u64; WORDS], standing: &mut [[u64; WORDS]])
    requires { (letter_bases ≤ s) × (s < length standing.old) }
    ensures standing_unchanged { (take s standing.new ≡ take s standing.old) × (length standing.new ≡ length standing.old) }
    ensures from_bases { FromBases standing.old s (row_slot s standing.new) }
{
    letter_row(s as u64, standing, work);
    standing[s] = *work;
}

// The rows of an exact search past those for the first place, for as many places as the table has room for, place by place.
fn exact_rows(plan: &Plan, end: usize, work: &mut [u64; WORDS], standing: &mut [[u64; WORDS]])
    requires end_bound { (end ≤ letter_shifts * letter_bases) × (end ≤ length standing.old) }
    ensures standing_unchanged { (take letter_bases standing.new ≡ take letter_bases standing.old) × (length standing.new ≡ length standing.old) }
    ensures by_index { (s : ℕ) → letter_bases ≤ s → s < end → Filled (λ _. true) (shifted_at (s / letter_bases) plan.now.layout.lengths.now (row_slot (s % letter_bases) standing.old)) plan.now.layout.lengths.now (row_slot s standing.new) (length plan.now.layout.lengths.now) }
{
    for s in BASES..end {
        later_slot(plan, s, work, standing);
    }
}

// The rows of a mixed search past those of the four letters.
fn mixed_rows(work: &mut [u64; WORDS], standing: &mut [[u64; WORDS]])
    requires { letter_digits ≤ length standing.old }
    ensures standing_unchanged { (take letter_bases standing.new ≡ take letter_bases standing.old) × (length standing.new ≡ length standing.old) }
    ensures by_index { (s : ℕ) → letter_bases ≤ s → s < letter_digits → FromBases standing.old s (row_slot s standing.new) }
{
    for s in BASES..DIGITS {
        mixed_slot(s, work, standing);
    }
}

// The rows of all letters that a template's motifs may have, from those of the four letters of a sequence. `work` is lent for a row.
pub fn letter_rows(plan: &Plan, work: &mut [u64; WORDS], standing: &mut [[u64; WORDS]])
    requires base_rows { BaseRows plan.now.layout.lengths.now plan.now.letters.now standing.old }
    requires standing_len { (base_of plan.now.search.template ≤ length standing.old) × (length standing.old ≤ letter_shifts * letter_bases) }
    ensures letters { Letters plan.now.search.template plan.now.layout.lengths.now plan.now.letters.now standing.new }
    ensures standing_len_unchanged { length standing.new ≡ length standing.old }
{
    let profile = plan.search.template.profile;
    match profile {
        Profile::Exact => {
            let n = standing.len() / BASES;
            exact_rows(plan, n * BASES, work, standing);
        }
        Profile::Mixed => mixed_rows(work, standing),
    }
}

// The row that the last letter of a candidate is tested by, and how far it is shifted as it is used.
#[derive(Clone, Copy)]
pub struct Test<'a> {
    pub row: &'a [u64; WORDS],
    pub by: Shift,
}

// The row of the letter shifted so far, where it is kept, and else the row as it is. Here and in `path` what is asked of a place stays in
// clauses: `examine`, `replay` and `support` take any place, and the pages name them. A `Test` that also had the plan and the place, and
// held what is asked of them, was tried: a mixed search over 64 sequences of 128 letters took 8 in 100 longer, and with all of it inlined
// an exact one over 1,024 of 60 letters took 18 in 100 longer.
pub fn test_for<'a>(made: &Made<'a>, place: Place) -> Test<'a>
    requires le_letters { (1 ≤ place.letters) × (place.letters ≤ made.now.plan.depth) }
    ensures tests_last { TestsLast made.now.plan.search.template made.now.plan.layout.lengths.now made.now.plan.letters.now place.letters place.number result.row.now result.by.places }
{
    let standing = made.standing;
    let below = place.letters as usize - 1;
    let profile = made.plan.search.template.profile;
    let x = profile.last(place.number) as usize;
    let i = made.plan.inside[below].letter as usize;
    let base = profile.base() as usize;
    let kept = (i + 1) * base <= standing.len();
    if kept {
        Test {
            row: &standing[i * base + x],
            by: Shift { places: 0 },
        }
    } else {
        Test {
            row: &standing[x],
            by: Shift { places: i },
        }
    }
}
