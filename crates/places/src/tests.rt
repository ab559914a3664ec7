// Calls of `matching` from outside it.
use matching::made::{Spot, Task};
use matching::{FIRSTS, LETTERS, OFFSETS, STANDING, WORDS, path, tables};
use rules::{Component, Place, Profile, Search, SequenceSet, Sequences, Template};

// The words of marks of a row, 64 to a word.
const MARKS: usize = SequenceSet::SEQUENCES / 64;

// Three sequences, for N[0,1]N. Behind the marks every bit is set, also where no sequence has a letter.
#[test]
fn first_slot_has_each_mark_and_every_bit(rt: HostRuntime) {
    let one = Component {
        length: 1,
        low: 0,
        high: 0,
        allowance: 0,
    };
    let near = Component { high: 1, ..one };
    let set = Sequences {
        letters: b"ACGTACAGGTAT",
        lengths: &[5, 5, 2],
    };
    let search = Search {
        template: Template {
            profile: Profile::Exact,
            count: 2,
            c1: one,
            c2: near,
            c3: one,
            c4: one,
            c5: one,
            c6: one,
        },
        quorum: 2,
        set: SequenceSet {
            sequences: 3,
            letters: 12,
        },
        place: Place {
            letters: 1,
            number: 0,
        },
    };
    let task = Task { search, set };
    let mut inside = [Spot::FIRST; LETTERS];
    let mut firsts = [0u32; FIRSTS];
    let mut offsets = [0u32; OFFSETS];
    let mut standing = [[0u64; WORDS]; STANDING];
    let mut begun = [0u64; WORDS];
    let plan = tables::begin(
        &task,
        &mut inside,
        &mut firsts,
        &mut offsets,
        &mut standing,
        &mut begun,
    );
    let mut slot = [0u64; WORDS];
    path::first_slot(&plan, &mut slot);
    assert_eq!(rt; slot[0], 0b111);
    assert!(rt; slot[1..MARKS].iter().all(|w| *w == 0));
    assert!(rt; slot[MARKS..].iter().all(|w| *w == u64::MAX));
}
