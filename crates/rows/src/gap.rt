// Gaps opened over the whole set, in the sequences that have a mark.
ghost use Rattle.std.specs.Prelude.{true, ◌≡◌, ℕ, ◌+◌, ◌*◌, ◌≤◌, ◌<◌, min, [], ◌∷◌, length, take, drop};
ghost use Rattle.rules.specs.Limits.{sequence_set_sequences, template_length, template_gap};
ghost use Rattle.rows.specs.Bits.{held};
ghost use Rattle.rows.specs.Rows.{behind, window};
ghost use Rattle.rows.specs.Set.{row_marks, first_word, bits_at, is_marked, window_at, Filled, Marked, Bounded};

use super::layout::Layout;
use super::set_bits::SetBits;
use super::{BITS, MARKS, WORDS, words};
use rules::Distances;

// How far the starts of two neighbouring components of a template may lie apart: as `Component::after` tells it of a sound template.
#[derive(Clone, Copy)]
pub struct Reach {
    pub apart: Distances,
    pub ghost near_bound: { (1 ≤ apart.near) × (apart.near ≤ template_length + template_gap) },
    pub ghost count_bound: { (1 ≤ apart.count) × (apart.count ≤ template_gap + 1) },
}

// A word shifted up by `d` places: 0 where all of its bits leave it.
fn shift(word: u64, d: usize) -> u64
    ensures { held (result ∷ []) ≡ behind d (held (word ∷ [])) }
{
    if d < 64 { word << d } else { 0 }
}

// Opens a gap in a sequence of one word: spreads its bits over `count` places by shifts that double, and shifts them up by `near`.
fn open_word(word: u64, reach: Reach) -> u64
    ensures { held (result ∷ []) ≡ window reach.apart.near reach.apart.count (held (word ∷ [])) }
{
    let mut all = word;
    let mut have = 1;
    // No `for`: it doubles, and has no number to count by.
    while have < reach.apart.count {
        let step = have.min(reach.apart.count - have);
        all |= shift(all, step);
        have += step;
    }
    shift(all, reach.apart.near)
}

// Opens a gap in the words of a sequence, one of which is opened apart: most sets have short sequences. `spare` is lent for the work.
fn open_sequence(reach: Reach, spare: &mut [u64], row: &mut [u64])
    requires { length spare.old ≡ length row.old }
    ensures { held row.new ≡ window reach.apart.near reach.apart.count (held row.old) }
{
    if row.len() == 1 {
        row[0] = open_word(row[0], reach);
        return;
    }
    words::open_gap(reach.apart, spare, row);
}

// Opens a gap in the sequences of one word of marks, those that have one.
fn open_sequences(
    layout: &Layout,
    w: usize,
    reach: Reach,
    spare: &mut [u64; WORDS],
    row: &mut [u64; WORDS],
)
    requires w_bound { w < row_marks }
    requires bounded { Bounded layout.now.lengths.now row.old }
    ensures row_unchanged { take (first_word layout.now.lengths.now (min (w * 64) (length layout.now.lengths.now))) row.new ≡ take (first_word layout.now.lengths.now (min (w * 64) (length layout.now.lengths.now))) row.old }
    ensures row_unchanged_2 { drop (first_word layout.now.lengths.now (w * 64 + 64)) row.new ≡ drop (first_word layout.now.lengths.now (w * 64 + 64)) row.old }
    ensures by_index { (k : ℕ) → w * 64 ≤ k → k < w * 64 + 64 → is_marked row.old k ≡ true → bits_at layout.now.lengths.now k row.new ≡ window_at reach.apart.near reach.apart.count layout.now.lengths.now row.old k }
{
    let layout = *layout;
    let base = w * BITS;
    for place in SetBits(row[w]) {
        let at = base + place as usize;
        let (from, to) = layout.words(at);
        open_sequence(reach, &mut spare[from..to], &mut row[from..to]);
    }
}

// Opens a gap in every sequence that has a mark, each in its own words; the marks stay.
pub fn open_all(layout: &Layout, reach: Reach, spare: &mut [u64; WORDS], row: &mut [u64; WORDS])
    requires bounded { Bounded layout.now.lengths.now row.old }
    ensures marked { Marked (is_marked row.old) row.new sequence_set_sequences }
    ensures filled { Filled (is_marked row.old) (window_at reach.apart.near reach.apart.count layout.now.lengths.now row.old) layout.now.lengths.now row.new (length layout.now.lengths.now) }
{
    for w in 0..MARKS {
        open_sequences(layout, w, reach, spare, row);
    }
}
