// Calls of `rows` from outside it.
use super::WORDS;
use rows::gap::{self, Reach};
use rows::layout::AnyLayout;
use rows::words::Shift;
use rows::{set, shift};
use rules::Distances;

// Three sequences of a word each, with its lowest bit. Where the next start lies two to four positions on, that becomes three bits, of which
// two are left where the row is shifted down by three.
#[test]
fn opens_and_shifts_each_sequence(rt: HostRuntime) {
    let mut firsts = [0u32; 4];
    let mut offsets = [0u32; 4];
    let layout = set::lay_out(&[5, 5, 2], &mut firsts, &mut offsets);
    let mut row = [0u64; WORDS];
    set::begin(3, &mut row);
    row[16] = 1;
    row[17] = 1;
    row[18] = 1;
    let mut spare = [0u64; WORDS];
    let reach = Reach {
        apart: Distances { near: 2, count: 3 },
    };
    gap::open_all(&layout, reach, &mut spare, &mut row);
    let mut down = [0u64; WORDS];
    shift::shift_all(&layout, Shift { places: 3 }, &row, &mut down);
    assert_eq!(rt; layout.words(2), (18, 19));
    for q in 16..19 {
        assert_eq!(rt; row[q], 0b11100);
        assert_eq!(rt; down[q], 0b11);
    }
    assert_eq!(rt; row[0], 0b111);
    assert_eq!(rt; row[1], 0);
}

// The words of a row for one sequence of 200,000 letters: more than `WORDS`.
const LONG: usize = 3141;

// The row has two bits, both in its last word, and the letter one place on has the upper alone: so of the row the lower stays.
#[test]
fn keeps_in_a_row_of_any_length(rt: HostRuntime) {
    let layout = AnyLayout::new(&[200000], &[16, LONG as u32], false);
    let mut row = [0u64; LONG];
    row[0] = 1;
    row[LONG - 1] = 0b110;
    let letter = [0b100u64; LONG];
    let mut out = [u64::MAX; LONG];
    let support = set::keep_all(&layout, &row, &letter, Shift { places: 1 }, 1, &mut out);
    assert_eq!(rt; support, 1);
    assert_eq!(rt; out[0], 1);
    assert_eq!(rt; out[1], 0);
    assert_eq!(rt; out[16], 0);
    assert_eq!(rt; out[LONG - 2], 0);
    assert_eq!(rt; out[LONG - 1], 0b010);
}
