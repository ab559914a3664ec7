// The number and the place of a refusal.
ghost use Rattle.std.specs.Prelude.{◌≡◌};
ghost use Rattle.rules.specs.Lists.{if};
ghost use Rattle.rules.specs.Told.{fine, refused, refusal_number, refusal_place, file_refusal_number, file_refusal_place, told_checked};

use crate::{FileRefusal, Refusal};

impl Refusal {
    // Its number in the paper.
    pub fn number(self) -> u64
        ensures { result ≡ refusal_number self }
    {
        match self {
            Refusal::SequenceCount => 1,
            Refusal::LetterCount => 2,
            Refusal::LengthSum => 3,
            Refusal::NotALetter(_) => 4,
            Refusal::ComponentCount => 5,
            Refusal::ComponentLength(_) => 6,
            Refusal::MotifLength => 7,
            Refusal::GapRange(_) => 8,
            Refusal::Quorum => 9,
            Refusal::SavedSize => 10,
            Refusal::SavedKind(_) => 11,
            Refusal::OtherSet => 12,
            Refusal::NotACandidate => 13,
            Refusal::MotifNumber => 14,
            Refusal::FirstRow => 15,
            Refusal::JoinList => 16,
            Refusal::Room => 17,
            Refusal::TextLine(_) => 18,
            Refusal::SavedBlank(_) => 21,
            Refusal::SavedSum => 22,
            Refusal::PlaceRule(_) => 23,
            Refusal::Allowance => 24,
        }
    }

    // The place that it tells, and 0 where it tells none.
    pub fn place(self) -> u64
        ensures { result ≡ refusal_place self }
    {
        match self {
            Refusal::NotALetter(o) => o.0 as u64,
            Refusal::ComponentLength(i) | Refusal::GapRange(i) => i as u64,
            Refusal::TextLine(n) => n as u64,
            Refusal::SavedKind(i) | Refusal::SavedBlank(i) | Refusal::PlaceRule(i) => i.0 as u64,
            _ => 0,
        }
    }

    // This refusal where a test says so: `Refusal::Quorum.when(quorum < 1)?`.
    pub fn when(self, bad: bool) -> Result<(), Refusal>
        ensures { told_checked result ≡ if bad (refused (refusal_number self) (refusal_place self)) fine }
    {
        if bad { Err(self) } else { Ok(()) }
    }
}

// The two calls below are those of `Refusal`, and no trait: what prints a refusal of either kind takes its two numbers.
impl FileRefusal {
    // Its number in the paper.
    pub fn number(self) -> u64
        ensures { result ≡ file_refusal_number self }
    {
        match self {
            FileRefusal::TextBefore => 19,
            FileRefusal::NoRoom => 20,
            FileRefusal::NotALetter(_) => 4,
        }
    }

    // The place that it tells, and 0 where it tells none.
    pub fn place(self) -> u64
        ensures { result ≡ file_refusal_place self }
    {
        match self {
            FileRefusal::NotALetter(o) => o.0 as u64,
            _ => 0,
        }
    }
}
