// The step from one candidate to the next.
ghost use Rattle.std.specs.Prelude.{◌≡◌, Bool, true, ltb, get_or, ℕ, ◌-◌, ◌/◌, ◌≤◌};
ghost use Rattle.rows.specs.NextLetter.{At};
ghost use Rattle.rules.specs.Limits.{letter_digits};
ghost use Rattle.rules.specs.Motif.{spell};
ghost use Rattle.rules.specs.Profile.{several};
ghost use Rattle.rules.specs.Support.{valid};
ghost use Rattle.rules.specs.Template.{components, none, size};
ghost use Rattle.rules.specs.Walk.{up, next};
ghost use Rattle.legs.specs.Kind.{walk_by, Rises};

use matching::made::Plan;
use rules::{Letter, Place, Profile};

// The last of the letters that stand for one base, T, and the last of all, V.
const LAST_BASE: u64 = Letter::BASES - 1;

const LAST_SYMBOL: u64 = Letter::SYMBOLS - 1;

// A candidate of a plan: it has a letter, and at most as many as a motif, and they are allowed.
#[derive(Clone, Copy)]
pub struct Candidate<'a> {
    pub plan: &'a Plan<'a>,
    pub place: Place,
    pub ghost some: { 1 ≤ place.letters },
    pub ghost few: { place.letters ≤ size plan.now.search.template },
    pub ghost allowed: { valid plan.now.search.template place.letters place.number ≡ true },
}

impl<'a> Candidate<'a> {
    // Whether another letter that stands for several bases may follow those of its component that come before the last of a mixed one.
    fn room_left(self) -> bool
        ensures { (k i : ℕ) → At (components self.entry.plan.now.search.template) (self.entry.place.letters - 1) k i → result ≡ ltb (several (spell letter_digits i (self.entry.place.number / letter_digits))) (get_or (components self.entry.plan.now.search.template) k none).allowance }
    {
        let spot = self.plan.inside[self.place.letters as usize - 1];
        let components = self.plan.search.template.components();
        let component = components[spot.component as usize];
        let most = component.allowance as u32;
        Letter::several(self.place.number / Letter::DIGITS, spot.letter as u32) < most
    }

    // Whether the last letter goes up by one, and not to be dropped: of a mixed one past T only if one more letter that stands for several
    // bases may stand there, and not past V.
    fn rises(self) -> bool
        ensures { (good : ℕ → ℕ → Bool) (depth : ℕ) → Rises (walk_by self.entry.plan.now.search.template good depth) self.entry.place.letters self.entry.place.number result }
    {
        match self.plan.search.template.profile {
            Profile::Exact => self.place.number % Letter::BASES < LAST_BASE,
            Profile::Mixed => {
                let x = self.place.number % Letter::DIGITS;
                if x == LAST_BASE {
                    self.room_left()
                } else {
                    x < LAST_SYMBOL
                }
            }
        }
    }

    // The way up: the last letter goes up to the next one that may stand there; where there is none it is dropped, and so on; when nothing
    // is left the search has ended.
    fn way_up(self) -> Place
        ensures { (good : ℕ → ℕ → Bool) (depth : ℕ) → up (walk_by self.entry.plan.now.search.template good depth) self.entry.place.letters self.entry.place.number ≡ result }
    {
        let plan = self.plan;
        let mut number = self.place.number;
        for letters in (1..=self.place.letters).rev() {
            let candidate = Candidate {
                plan,
                place: Place { letters, number },
            };
            if candidate.rises() {
                return Place::new(letters, number + 1);
            }
            number = plan.search.template.profile.shorter(number);
        }
        Place::ended()
    }

    // The place after it, frequent or not: under a frequent one shorter than a motif its first letter more, A.
    pub fn next_place(self, frequent: bool) -> Place
        ensures { (good : ℕ → ℕ → Bool) → good self.entry.place.letters self.entry.place.number ≡ frequent → next (walk_by self.entry.plan.now.search.template good self.entry.plan.now.depth) self.entry.place ≡ result }
    {
        let place = self.place;
        if place.letters < self.plan.depth && frequent {
            Place::new(
                place.letters + 1,
                place.number * self.plan.search.template.profile.base(),
            )
        } else {
            self.way_up()
        }
    }
}
