// The words of one sequence.
ghost use Rattle.std.specs.Prelude.{true, not, [], ◌∷◌, map, ◌≡◌, ℕ, ◌+◌, ◌*◌, ◌≤◌, ◌<◌, eqb, length, get_or, replicate};
ghost use Rattle.rules.specs.Letters.{letter, is_letter};
ghost use Rattle.rules.specs.Limits.{letter_bases};
ghost use Rattle.rules.specs.Lists.{run, over};
ghost use Rattle.rows.specs.Flags.{bit, has_left};
ghost use Rattle.rows.specs.Bits.{held};
ghost use Rattle.rows.specs.Rows.{either, ahead, behind, window, extended, lettered};
ghost use Rattle.rows.specs.Words as words;
ghost use Rattle.rows.specs.Bases.{word_of};

use rules::Distances;

// How far a row is shifted, less than a word: a letter's place in its component, and what a longer shift leaves of a word.
#[derive(Clone, Copy)]
pub struct Shift {
    pub places: usize,
    pub ghost in_word: { places < 64 },
}

// The 64 bits of two words that begin so many places on.
pub fn down(by: Shift, low: u64, high: u64) -> u64
    ensures { result ≡ words.shifted_down by.places low high }
{
    (low >> by.places) | ((high << 1) << (63 - by.places))
}

// The same for a shift that is not 0: one shift for each word. With `down` in its place `keep_words` takes 8 in 100 more instructions over
// a long row, and 6 to 8 in 100 more time where both loops are aligned alike.
fn down_some(by: Shift, low: u64, high: u64) -> u64
    requires { 1 ≤ by.places }
    ensures { result ≡ words.shifted_down by.places low high }
{
    (low >> by.places) | (high << (64 - by.places))
}

// The upper of two words, shifted up, with the bits that come in from the lower.
pub fn up(by: Shift, low: u64, high: u64) -> u64
    ensures { result ≡ words.shifted_up by.places low high }
{
    (high << by.places) | ((low >> 1) >> (63 - by.places))
}

// The words of the four letters' rows for the same letters of a sequence.
#[derive(Clone, Copy)]
pub struct Bases {
    pub a: u64,
    pub c: u64,
    pub g: u64,
    pub t: u64,
}

// The lowest bits of a word's eight bytes, side by side: those of two bytes are moved together, then those of four, then all.
fn gather(word: u64) -> u64
    ensures { (result < 256) × ((p : ℕ) → p < 8 → get_or (held (result ∷ [])) p 0 ≡ get_or (held (word ∷ [])) (8 * p) 0) }
{
    let alone = word & 0x0101_0101_0101_0101;
    let two = (alone | (alone >> 7)) & 0x0003_0003_0003_0003;
    let four = (two | (two >> 14)) & 0x0000_000F_0000_000F;
    (four | (four >> 28)) & 0xFF
}

// The words of the four letters' rows for at most 64 letters, eight at a time from the last to the first. The three lowest bits of a
// letter's byte tell it from the other letters: A has 001, C 011, G 111 and T 100; past the last letter they are 000. `a & (a ^ b)` has
// the bits of `a` that `b` has not.
pub fn letter_words(sequence: &[u8]) -> Bases
    requires { (length sequence.now ≤ 64) × ((i : ℕ) → i < length sequence.now → is_letter (get_or sequence.now i 0) ≡ true) }
    ensures { (x : ℕ) → x < letter_bases → held (word_of result x ∷ []) ≡ lettered eqb (letter x) sequence.now 64 }
{
    let mut first: u64 = 0;
    let mut second: u64 = 0;
    let mut third: u64 = 0;
    let (eights, rest) = sequence.as_chunks::<8>();
    for letter in rest.iter().rev() {
        let byte = u64::from(*letter);
        first = (first << 1) | (byte & 1);
        second = (second << 1) | ((byte >> 1) & 1);
        third = (third << 1) | ((byte >> 2) & 1);
    }
    for eight in eights.iter().rev() {
        let bytes = u64::from_le_bytes(*eight);
        first = (first << 8) | gather(bytes);
        second = (second << 8) | gather(bytes >> 1);
        third = (third << 8) | gather(bytes >> 2);
    }
    Bases {
        a: first & (first ^ second),
        c: second & (second ^ third),
        g: second & third,
        t: third & (third ^ first),
    }
}

// The first `n` words of a row with the first letter of a part more, for which nothing is shifted, and all of them joined in one. Here and
// below, that all are of one length stays a clause: a type that held it would have `out` in it, a `&mut`, and each function would want a
// clause more, that this is the caller's buffer still; one of `row` and `letters` alone would leave the clause on `out`.
fn keep_plain(row: &[u64], letters: &[u64], n: usize, out: &mut [u64]) -> u64
    requires { (length letters.now ≡ length row.now) × (length out.old ≡ length row.now) × (n ≤ length row.now) }
    ensures result_value { eqb result 0 ≡ not (has_left (map (words.extended_word 0 letters.now row.now) (run 0 n))) }
    ensures out_after { out.new ≡ over (words.extended_word 0 letters.now row.now) n out.old }
{
    let mut all: u64 = 0;
    for q in 0..n {
        let v = row[q] & letters[q];
        out[q] = v;
        all |= v;
    }
    all
}

// The first `n` words of a row with a later letter more, and all of them joined in one. Each word of the letter's row is read once: the
// upper of two is the lower of the next two.
fn keep_words(row: &[u64], letters: &[u64], by: Shift, n: usize, out: &mut [u64]) -> u64
    requires { (length letters.now ≡ length row.now) × (length out.old ≡ length row.now) × (n < length row.now) × (1 ≤ by.places) }
    ensures result_value { eqb result 0 ≡ not (has_left (map (words.extended_word by.places letters.now row.now) (run 0 n))) }
    ensures out_after { out.new ≡ over (words.extended_word by.places letters.now row.now) n out.old }
{
    let mut all: u64 = 0;
    let mut low = letters[0];
    for q in 0..n {
        let high = letters[q + 1];
        let v = row[q] & down_some(by, low, high);
        out[q] = v;
        all |= v;
        low = high;
    }
    all
}

// One letter more: keeps the bits at which it stands so many places on, and answers whether one is left.
pub fn keep_letter(row: &[u64], letters: &[u64], by: Shift, out: &mut [u64]) -> bool
    requires { (length letters.now ≡ length row.now) × (length out.old ≡ length row.now) }
    ensures out_after { held out.new ≡ extended by.places (held letters.now) (held row.now) }
    ensures value { result ≡ has_left (held out.new) }
{
    let n = out.len();
    if n == 0 {
        return false;
    }
    if by.places == 0 {
        return keep_plain(row, letters, n, out) != 0;
    }
    let last = n - 1;
    let all = keep_words(row, letters, by, last, out);
    let v = row[last] & down(by, letters[last], 0);
    out[last] = v;
    all | v != 0
}

// The first `n` words of a row shifted down.
fn down_words(row: &[u64], by: Shift, n: usize, out: &mut [u64])
    requires { (length out.old ≡ length row.now) × (n < length row.now) }
    ensures { out.new ≡ over (words.ahead_word by.places row.now) n out.old }
{
    for q in 0..n {
        out[q] = down(by, row[q], row[q + 1]);
    }
}

// A row shifted down: zeros come in at its end.
pub fn shift_down(row: &[u64], by: Shift, out: &mut [u64])
    requires { length out.old ≡ length row.now }
    ensures { held out.new ≡ ahead by.places (held row.now) }
{
    let n = out.len();
    if n == 0 {
        return;
    }
    let last = n - 1;
    down_words(row, by, last, out);
    out[last] = down(by, row[last], 0);
}

// The words past `e` of a row shifted up by `e` words and some bits.
fn shift_words(row: &[u64], e: usize, by: Shift, out: &mut [u64])
    requires out_len { (length out.old ≡ length row.now) × (e < length row.now) }
    requires out_value { out.old ≡ over (words.behind_word e by.places row.now) (e + 1) out.old }
    ensures { out.new ≡ over (words.behind_word e by.places row.now) (length row.now) out.old }
{
    for q in e + 1..out.len() {
        out[q] = up(by, row[q - e - 1], row[q - e]);
    }
}

// A row shifted up by `d` positions.
fn shift_up(row: &[u64], d: usize, out: &mut [u64])
    requires { length out.old ≡ length row.now }
    ensures { held out.new ≡ behind d (held row.now) }
{
    let e = d / 64;
    let by = Shift { places: d % 64 };
    let n = out.len();
    if n <= e {
        out.fill(0);
        return;
    }
    out[..e].fill(0);
    out[e] = up(by, 0, row[0]);
    shift_words(row, e, by, out);
}

// Sets in a row the bits of another.
fn join(row: &mut [u64], other: &[u64])
    requires { length other.now ≡ length row.old }
    ensures { held row.new ≡ either (held row.old) (held other.now) }
{
    for q in 0..row.len() {
        row[q] |= other[q];
    }
}

// Copies a row. No `copy_from_slice`, here and where the FASTA reader joins lines: it would have the library ask for `memmove` too,
// and all that the library asks of a C program is `memcpy` and `memset` (tests/header.sh holds it to that).
fn copy(row: &[u64], out: &mut [u64])
    requires { length out.old ≡ length row.now }
    ensures { out.new ≡ row.now }
{
    for q in 0..out.len() {
        out[q] = row[q];
    }
}

// Spreads each bit of a row over `count` positions, its own the first, by shifts that double.
fn spread(count: usize, row: &mut [u64], spare: &mut [u64])
    requires { (length spare.old ≡ length row.old) × (1 ≤ count) }
    ensures { held row.new ≡ window 0 count (held row.old) }
{
    let mut have = 1;
    // No `for`: it doubles, and has no number to count by.
    while have < count {
        let d = have.min(count - have);
        shift_up(row, d, spare);
        join(row, spare);
        have += d;
    }
}

// Opens a gap in a row: its bits are then those that have one of `count` set bits before them, the nearest `near` places before. `spare` is
// lent for the work. It takes any distances, and no `Reach`: what bounds them it does not need.
pub fn open_gap(apart: Distances, spare: &mut [u64], row: &mut [u64])
    requires { (length spare.old ≡ length row.old) × (1 ≤ apart.count) }
    ensures { held row.new ≡ window apart.near apart.count (held row.old) }
{
    copy(row, spare);
    spread(apart.count, spare, row);
    shift_up(spare, apart.near, row);
}
