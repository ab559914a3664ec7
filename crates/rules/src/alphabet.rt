// The letters: the value of each, by four comparisons, and back; and the bases that a mixed letter stands for, one or several.
ghost use Rattle.std.specs.Prelude.{◌≡◌, ◌<◌, get_or};
ghost use Rattle.rules.specs.Letters.{letter, is_letter, value};
ghost use Rattle.rules.specs.Limits.{letter_digits};
ghost use Rattle.rules.specs.Lists.{if};
ghost use Rattle.rules.specs.Motif.{spell};
ghost use Rattle.rules.specs.Profile.{base_sets, has_base, several};

use crate::Letter;

// A C G T, R Y K M S W, B D H V.
const SETS: [u8; Letter::SYMBOLS as usize] = [1, 2, 4, 8, 5, 10, 12, 3, 6, 9, 14, 13, 11, 7];

// A value where a comparison holds, and otherwise the one so far. No way leads around a comparison, so that a loop can make it on
// many bytes at a time.
fn when(holds: bool, this: u8, so_far: u8) -> u8
    ensures { result ≡ if holds this so_far }
{
    if holds { this } else { so_far }
}

impl Letter {
    pub const BASES: u64 = 4;

    pub const BITS: u64 = 2;

    pub const MARK: u8 = 4;

    // The value of a byte: A 0, C 1, G 2, T 3, and every other byte the mark. The four comparisons are those of the definition
    // `value` in specs/Letters; docs/ALPHABET.md has both side by side. Nothing else in the code says which bytes are letters, but
    // for `byte`, which goes back.
    pub fn value(b: u8) -> u8
        ensures { result ≡ value b }
    {
        let v = Letter::MARK;
        let v = when(b == b'A', 0, v);
        let v = when(b == b'C', 1, v);
        let v = when(b == b'G', 2, v);
        when(b == b'T', 3, v)
    }

    // Whether a byte is a letter: whether its value is other than the mark, which lies above those of the letters.
    pub fn is_letter(b: u8) -> bool
        ensures { result ≡ is_letter b }
    {
        Letter::value(b) < Letter::MARK
    }

    // The letter that has a value, as a byte.
    pub fn byte(value: u64) -> u8
        ensures { result ≡ letter value }
    {
        match value {
            0 => b'A',
            1 => b'C',
            2 => b'G',
            _ => b'T',
        }
    }

    // THE MIXED LETTERS, in the order A C G T, R Y K M S W, B D H V: how many there are, and the base of a number that has them for digits.
    pub const SYMBOLS: u64 = 14;

    pub const DIGITS: u64 = 16;

    // The bases that each stands for, by its place in that order: 1 for A, 2 for C, 4 for G, 8 for T, added. docs/ALPHABET.md has the
    // table beside the definition `bases`.
    pub fn base_sets() -> [u8; Letter::SYMBOLS as usize]
        ensures { result ≡ base_sets }
    {
        SETS
    }

    // The bases that a letter stands for; none, if it is no letter's place in the order.
    pub fn base_set(x: u64) -> u8
        ensures { result ≡ get_or base_sets x 0 }
    {
        Letter::base_sets().get(x as usize).copied().unwrap_or(0)
    }

    // Whether such a set has the base with a value. A byte that is no letter has the mark for its value, and is in none.
    pub fn has_base(set: u8, value: u8) -> bool
        requires { value < 8 }
        ensures { result ≡ has_base set value }
    {
        (set >> value) % 2 == 1
    }

    // How many of the last n letters of a mixed motif's number stand for several bases.
    pub fn several(number: u64, n: u32) -> u32
        ensures { result ≡ several (spell letter_digits n number) }
    {
        let mut rest = number;
        let mut found: u32 = 0;
        for _ in 0..n {
            found += u32::from(Letter::BASES <= rest % Letter::DIGITS);
            rest = rest / Letter::DIGITS;
        }
        found
    }
}
