// The kinds of search: the number of each, the base and the most letters of its motifs, and how a motif's number, whose digits are its
// letters, is taken apart. Code that is for one kind alone takes its digits by itself.
ghost use Rattle.std.specs.Prelude.{map, ◌≡◌, is_ok, ◌/◌, ◌%◌, ◌^◌, ◌<◌, ◌≤◌, leb, length, get_or};
ghost use Rattle.std.specs.Result.{result_unwrap_or};
ghost use Rattle.rules.specs.Limits.{profile_last};
ghost use Rattle.rules.specs.Motif.{spell};
ghost use Rattle.rules.specs.Profile.{base_sets, profile_by, profile_number, numbered_profile};
ghost use Rattle.rules.specs.declared.Profile.TheVariants.{Exact};

use crate::{Letter, Profile, Template, UnknownProfile};

// The bits of a digit: of an exact motif's number, where it is a letter's value, and of a mixed one's.
const EXACT_BITS: u32 = Letter::BITS as u32;

const MIXED_BITS: u32 = 4;

impl Profile {
    // The number of each, as it is saved.
    pub const EXACT: u8 = 0;

    pub const MIXED: u8 = 1;

    // The one that has a number; every number but 1 is taken for the exact one.
    pub fn of(number: u64) -> Profile
        ensures { result ≡ numbered_profile number }
    {
        Profile::try_from(number).unwrap_or(Profile::Exact)
    }

    // The base of a motif's number.
    pub fn base(self) -> u64
        ensures { result ≡ (profile_by self).base }
    {
        match self {
            Profile::Exact => Letter::BASES,
            Profile::Mixed => Letter::DIGITS,
        }
    }

    // The most letters of a motif.
    pub fn most(self) -> u32
        ensures { result ≡ (profile_by self).most }
    {
        match self {
            Profile::Exact => Template::LETTERS,
            Profile::Mixed => Template::MIXED,
        }
    }

    // The last letter of a number.
    pub fn last(self, number: u64) -> u64
        ensures { result ≡ number % (profile_by self).base }
    {
        match self {
            Profile::Exact => number % Letter::BASES,
            Profile::Mixed => number % Letter::DIGITS,
        }
    }

    // A number without its last letter.
    pub fn shorter(self, number: u64) -> u64
        ensures { result ≡ number / (profile_by self).base }
    {
        match self {
            Profile::Exact => number / Letter::BASES,
            Profile::Mixed => number / Letter::DIGITS,
        }
    }

    // And without its last n letters.
    pub fn prefix(self, number: u64, n: u32) -> u64
        ensures { result ≡ number / (profile_by self).base ^ n }
    {
        match self {
            Profile::Exact => cut(number, n, EXACT_BITS),
            Profile::Mixed => cut(number, n, MIXED_BITS),
        }
    }

    // Writes the bases that the last letters of a number stand for, of as many letters as there is room for.
    pub fn spell(self, number: u64, word: &mut [u8])
        ensures { word.new ≡ map (λ x. get_or base_sets x 0) (spell (profile_by self).base (length word.old) number) }
    {
        let mut rest = number;
        for i in (0..word.len()).rev() {
            word[i] = Letter::base_set(self.last(rest));
            rest = self.shorter(rest);
        }
    }
}

impl From<Profile> for u8 {
    ghost from_gives = { λ profile number. number ≡ profile_number profile };

    fn from(profile: Profile) -> u8 {
        match profile {
            Profile::Exact => Profile::EXACT,
            Profile::Mixed => Profile::MIXED,
        }
    }
}

impl TryFrom<u64> for Profile {
    type Error = UnknownProfile;

    ghost try_from_gives = { λ number r. (is_ok r ≡ leb number profile_last) × (result_unwrap_or r Exact ≡ numbered_profile number) };

    fn try_from(number: u64) -> Result<Profile, UnknownProfile> {
        if number == Profile::EXACT as u64 {
            Ok(Profile::Exact)
        } else if number == Profile::MIXED as u64 {
            Ok(Profile::Mixed)
        } else {
            Err(UnknownProfile)
        }
    }
}

// A number without its last n digits of so many bits.
fn cut(number: u64, n: u32, bits: u32) -> u64
    requires { (0 < bits) × (bits ≤ 4) }
    ensures { result ≡ number / (2 ^ bits) ^ n }
{
    number.checked_shr(n.saturating_mul(bits)).unwrap_or(0)
}
