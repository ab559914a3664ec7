// Rows over the whole set: the marks, and each sequence's words. Only sequences that have a mark are looked at.
ghost use Rattle.std.specs.Prelude.{true, ◌≡◌, ℕ, ◌+◌, ◌-◌, ◌*◌, ◌^◌, ◌≤◌, ◌<◌, min, [], ◌∷◌, eqb, ltb, length, take, drop, get_or};
ghost use Rattle.rules.specs.Limits.{sequence_set_sequences, sequence_set_letters};
ghost use Rattle.rules.specs.Lists as lists;
ghost use Rattle.rows.specs.Bits.{held};
ghost use Rattle.rows.specs.Flags.{has_left};
ghost use Rattle.rows.specs.Rows.{extended};
ghost use Rattle.rows.specs.Set.{row_marks, row_words, words_of, first_word, Offsets, between, bits_at, is_marked, tally, extended_at, is_extended_marked, Filled, Marked, Bounded};

use super::layout::{Layout, Spans};
use super::set_bits::SetBits;
use super::words::{self, Shift};
use super::{BITS, MARKS, WORDS};

// The words of `n` bits: of a sequence's letters, or of the marks of a set's sequences.
fn words_of(n: u32) -> u32
    requires { n ≤ sequence_set_letters }
    ensures { result ≡ words_of n }
{
    n.div_ceil(64)
}

// Writes where each sequence's words begin in a row, and where its letters do in the buffer. The layout holds the very table that is lent,
// so what its type says of it (`laid`) is so of that table: a `&mut` that goes on into the answer as a `&` has no value that a clause could
// name after the call.
pub fn lay_out<'a>(lengths: &'a [u32], firsts: &'a mut [u32], offsets: &mut [u32]) -> Layout<'a>
    requires lengths_len_bound { (length lengths.now ≤ sequence_set_sequences) × (lists.sum lengths.now ≤ sequence_set_letters) }
    requires lengths_in_bounds { (length lengths.now < length firsts.old) × (length lengths.now < length offsets.old) }
    ensures layout { result.lengths.now ≡ lengths.now }
    ensures same_table { result.firsts.ref_ptr ≡ firsts.entry.ref_ptr }
    ensures inside { first_word lengths.now (length lengths.now) ≤ row_words }
    ensures firsts_len_unchanged { length result.firsts.now ≡ length firsts.old }
    ensures offsets { Offsets lengths.now offsets.new }
    ensures offsets_len_unchanged { length offsets.new ≡ length offsets.old }
{
    let mut first = MARKS as u32;
    let mut offset: u32 = 0;
    let mut short = true;
    firsts[0] = first;
    offsets[0] = 0;
    for k in 0..lengths.len() {
        let n = lengths[k];
        let words = words_of(n);
        first += words;
        offset += n;
        short &= words == 1;
        firsts[k + 1] = first;
        offsets[k + 1] = offset;
    }
    Layout {
        lengths,
        firsts,
        short,
    }
}

// Marks the first `n` sequences of a row that has no marks.
fn mark_first(n: usize, row: &mut [u64; WORDS])
    requires n_bound { n ≤ sequence_set_sequences }
    requires by_index { (k : ℕ) → k < sequence_set_sequences → get_or (held row.old) k 0 ≡ 0 }
    ensures marked { Marked (λ k. ltb k n) row.new sequence_set_sequences }
    ensures by_index_2 { (q : ℕ) → row_marks ≤ q → get_or row.new q 0 ≡ get_or row.old q 0 }
{
    for k in 0..n {
        row[k / BITS] |= 1 << (k % BITS);
    }
}

// The row that a first letter is added to: the `n` sequences all have a mark, and every bit is set.
pub fn begin(n: usize, row: &mut [u64; WORDS])
    requires { n ≤ sequence_set_sequences }
    ensures marked { Marked (λ k. ltb k n) row.new sequence_set_sequences }
    ensures by_index { (q : ℕ) → row_marks ≤ q → q < row_words → get_or row.new q 0 ≡ 2 ^ 64 - 1 }
{
    row.fill(u64::MAX);
    row[..MARKS].fill(0);
    mark_first(n, row);
}

// One letter more in the words of a sequence. One word is looked at apart: most sets have short sequences.
fn keep_sequence(row: &[u64], letter: &[u64], by: Shift, out: &mut [u64]) -> bool
    requires { (length letter.now ≡ length row.now) × (length out.old ≡ length row.now) }
    ensures out_after { held out.new ≡ extended by.places (held letter.now) (held row.now) }
    ensures value { result ≡ has_left (held out.new) }
{
    if row.len() == 1 {
        let word = row[0] & (letter[0] >> by.places);
        out[0] = word;
        return word != 0;
    }
    words::keep_letter(row, letter, by, out)
}

// What a letter more makes of a word of marks: those that are left, and how many are lost.
#[derive(Clone, Copy)]
pub struct Kept {
    pub left: u64,
    pub lost: u32,
}

// One letter more in the sequences of one word of marks, those that have one. It stops where more than `most` of them have lost theirs.
// Here and below three facts stay clauses. That no mark stands past the last sequence (`Bounded`): a type of layout and row would hold it of
// rows that are read, but `open_all` writes its row, and where a plan has the layout, a clause would have to say that both are one. That
// `w` is one of the words of marks: a type would hold it of one number, which each caller counts up to that bound. And that the rows have
// room for the set's words: they need be no longer, and so are slices, not arrays of as many words as any set may have.
fn keep_sequences<const N: usize>(
    layout: &Spans<N>,
    w: usize,
    row: &[u64],
    letter: &[u64],
    by: Shift,
    most: u32,
    out: &mut [u64],
) -> Kept
    requires w_bound { w < row_marks }
    requires bounded { Bounded layout.now.lengths.now row.now }
    requires lengths_in_bounds { (first_word layout.now.lengths.now (length layout.now.lengths.now) ≤ length row.now) × (length letter.now ≡ length row.now) × (length out.old ≡ length row.now) }
    ensures lost_bound { tally (is_extended_marked by.places layout.now.lengths.now letter.now row.now) (w * 64) 64 + result.lost ≤ tally (is_marked row.now) (w * 64) 64 }
    ensures b_value { result.lost ≤ most → (b : ℕ) → b < 64 → eqb (get_or (held (result.left ∷ [])) b 0) 1 ≡ is_extended_marked by.places layout.now.lengths.now letter.now row.now (w * 64 + b) }
    ensures out_unchanged { (take (first_word layout.now.lengths.now (min (w * 64) (length layout.now.lengths.now))) out.new ≡ take (first_word layout.now.lengths.now (min (w * 64) (length layout.now.lengths.now))) out.old) × (length out.new ≡ length out.old) }
    ensures out_after { result.lost ≤ most → (k : ℕ) → w * 64 ≤ k → k < w * 64 + 64 → is_marked row.now k ≡ true → bits_at layout.now.lengths.now k out.new ≡ extended_at by.places layout.now.lengths.now letter.now row.now k }
    ensures lost_value { result.lost ≤ most → tally (is_extended_marked by.places layout.now.lengths.now letter.now row.now) (w * 64) 64 + result.lost ≡ tally (is_marked row.now) (w * 64) 64 }
{
    let layout = *layout;
    let base = w * BITS;
    let mut left: u64 = 0;
    let mut lost: u32 = 0;
    for place in SetBits(row[w]) {
        if most < lost {
            return Kept { left, lost };
        }
        let at = base + place as usize;
        let (from, to) = layout.words(at);
        let found = keep_sequence(&row[from..to], &letter[from..to], by, &mut out[from..to]);
        left |= u64::from(found) << place;
        lost += u32::from(!found);
    }
    Kept { left, lost }
}

// The same in a short set, without a stop: the word of sequence k is word `MARKS` + k, and nothing is looked up. It answers the marks that
// are left.
fn keep_ones<const N: usize>(
    layout: &Spans<N>,
    w: usize,
    row: &[u64],
    letter: &[u64],
    by: Shift,
    out: &mut [u64],
) -> u64
    requires w_bound { w < row_marks }
    requires short { layout.now.short ≡ true }
    requires bounded { Bounded layout.now.lengths.now row.now }
    requires lengths_in_bounds { (first_word layout.now.lengths.now (length layout.now.lengths.now) ≤ length row.now) × (length letter.now ≡ length row.now) × (length out.old ≡ length row.now) }
    ensures by_index { (b : ℕ) → b < 64 → eqb (get_or (held (result ∷ [])) b 0) 1 ≡ is_extended_marked by.places layout.now.lengths.now letter.now row.now (w * 64 + b) }
    ensures out_unchanged { (take (first_word layout.now.lengths.now (min (w * 64) (length layout.now.lengths.now))) out.new ≡ take (first_word layout.now.lengths.now (min (w * 64) (length layout.now.lengths.now))) out.old) × (length out.new ≡ length out.old) }
    ensures by_index_2 { (k : ℕ) → w * 64 ≤ k → k < w * 64 + 64 → is_marked row.now k ≡ true → bits_at layout.now.lengths.now k out.new ≡ extended_at by.places layout.now.lengths.now letter.now row.now k }
{
    let base = MARKS + w * BITS;
    let mut marks: u64 = 0;
    for place in SetBits(row[w]) {
        let at = base + place as usize;
        let word = row[at] & (letter[at] >> by.places);
        out[at] = word;
        marks |= u64::from(word != 0) << place;
    }
    marks
}

// `keep_all` in a short set. It stops only between two words of marks. It stands beside the other for speed: by the loop of `keep_all` a
// letter more in 1,024 sequences of one word takes 1.5 to 2.3 times as long.
fn keep_short<const N: usize>(
    layout: &Spans<N>,
    row: &[u64],
    letter: &[u64],
    by: Shift,
    quorum: u32,
    out: &mut [u64],
) -> u32
    requires short { layout.now.short ≡ true }
    requires bounded { Bounded layout.now.lengths.now row.now }
    requires lengths_in_bounds { (first_word layout.now.lengths.now (length layout.now.lengths.now) ≤ length row.now) × (length letter.now ≡ length row.now) × (length out.old ≡ length row.now) }
    ensures lower_bound { tally (is_extended_marked by.places layout.now.lengths.now letter.now row.now) 0 sequence_set_sequences ≤ result }
    ensures value { quorum ≤ result → result ≡ tally (is_extended_marked by.places layout.now.lengths.now letter.now row.now) 0 sequence_set_sequences }
    ensures marked { quorum ≤ result → Marked (is_extended_marked by.places layout.now.lengths.now letter.now row.now) out.new sequence_set_sequences }
    ensures filled { quorum ≤ result → Filled (is_marked row.now) (extended_at by.places layout.now.lengths.now letter.now row.now) layout.now.lengths.now out.new (length layout.now.lengths.now) }
    ensures out_len_unchanged { length out.new ≡ length out.old }
{
    let mut able = count(MARKS, row);
    for w in 0..MARKS {
        if able < quorum {
            return able;
        }
        let left = keep_ones(layout, w, row, letter, by, out);
        out[w] = left;
        able -= (row[w] ^ left).count_ones();
    }
    if able < quorum {
        return able;
    }
    count(MARKS, out)
}

// Clears the words of marks from `n` on, those that a set of fewer sequences does not have.
fn clear_marks(n: usize, row: &mut [u64])
    requires { (n ≤ row_marks) × (row_marks ≤ length row.old) }
    ensures by_index { ((q : ℕ) → q < n → get_or row.new q 0 ≡ get_or row.old q 0) × ((q : ℕ) → n ≤ q → q < row_marks → get_or row.new q 0 ≡ 0) }
    ensures row_unchanged { (drop row_marks row.new ≡ drop row_marks row.old) × (length row.new ≡ length row.old) }
{
    row[n..MARKS].fill(0);
}

// One letter more, which stands so many places on, in every sequence that has a mark: its words, and its new mark. It answers how many have
// a mark then, the sum of the counts of ones of the new marks: the support. Or, as soon as fewer than `quorum` can have one, it answers so
// many as still can, and the rest is not written. A short set has a loop of its own, of which the compiler makes one without a shift where
// it is called with 0: there one call for all shifts takes 17 to 28 in 100 longer. In any other set only the words of marks that it has
// are gone over. Rows of any length will do that have room for the set's words.
pub fn keep_all<const N: usize>(
    layout: &Spans<N>,
    row: &[u64],
    letter: &[u64],
    by: Shift,
    quorum: u32,
    out: &mut [u64],
) -> u32
    requires bounded { Bounded layout.now.lengths.now row.now }
    requires lengths_in_bounds { (first_word layout.now.lengths.now (length layout.now.lengths.now) ≤ length row.now) × (length letter.now ≡ length row.now) × (length out.old ≡ length row.now) }
    ensures lower_bound { tally (is_extended_marked by.places layout.now.lengths.now letter.now row.now) 0 sequence_set_sequences ≤ result }
    ensures value { quorum ≤ result → result ≡ tally (is_extended_marked by.places layout.now.lengths.now letter.now row.now) 0 sequence_set_sequences }
    ensures marked { quorum ≤ result → Marked (is_extended_marked by.places layout.now.lengths.now letter.now row.now) out.new sequence_set_sequences }
    ensures filled { quorum ≤ result → Filled (is_marked row.now) (extended_at by.places layout.now.lengths.now letter.now row.now) layout.now.lengths.now out.new (length layout.now.lengths.now) }
    ensures out_len_unchanged { length out.new ≡ length out.old }
{
    if layout.short {
        if by.places == 0 {
            return keep_short(layout, row, letter, Shift { places: 0 }, quorum, out);
        }
        return keep_short(layout, row, letter, by, quorum, out);
    }
    let used = words_of(layout.lengths.len() as u32) as usize;
    let mut possible = count(used, row);
    for w in 0..used {
        if possible < quorum {
            return possible;
        }
        let kept = keep_sequences(layout, w, row, letter, by, possible - quorum, out);
        out[w] = kept.left;
        possible -= kept.lost;
    }
    if possible < quorum {
        return possible;
    }
    clear_marks(used, out);
    count(used, out)
}

// How many sequences are marked in the first `n` words of marks: the sum of their counts of ones.
fn count(n: usize, row: &[u64]) -> u32
    requires { (n ≤ row_marks) × (n ≤ length row.now) }
    ensures { result ≡ lists.sum (held (take n row.now)) }
{
    let mut sum: u32 = 0;
    for w in 0..n {
        sum += row[w].count_ones();
    }
    sum
}
