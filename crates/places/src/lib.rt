// An inner crate: whether a search stands where the uninterrupted search passes through (13), and with it all that a leg or a
// save checks of the search that it is given. The rows of its path are made for that, and a leg goes on with them.
#![tactic(auto)]

#[cfg(test)]
mod tests;

ghost use Rattle.std.specs.Prelude.{true, Some, None, ◌≡◌, ℕ, ◌≤◌, leb, length};
ghost use Rattle.rules.specs.Refusals.{first, check13, is_passing, search_checks};
ghost use Rattle.rules.specs.Saved.{meets_place_rule};
ghost use Rattle.rules.specs.Sound.{SoundSet, SoundTemplate};
ghost use Rattle.rules.specs.Told.{told_checked};
ghost use Rattle.matching.specs.Path.{Path};
ghost use Rattle.places.specs.SearchOrder.{before_13};

use matching::made::{Made, Spot, Task};
use matching::{SLOTS, WORDS, path, tables};
use rules::{Refusal, Search, Sequences};

// Whether the prefix of a place that is one letter shorter is frequent, if this is its support. The empty one is, which is asked for none.
fn frequent(quorum: u64, found: Option<u32>) -> bool
    ensures none { found ≡ None → result ≡ true }
    ensures some { (n : ℕ) → found ≡ Some n → result ≡ leb quorum n }
{
    match found {
        None => true,
        Some(support) => quorum <= u64::from(support),
    }
}

// 13, of a leg: a place that the search does not pass through. It passes through the ended place and through each candidate: each place
// whose prefix a letter shorter is frequent. Where there is a candidate, the slots have its path then, on which the leg goes. That the
// place keeps its rule is a clause here and twice below, and no type: one of a search with that fact would serve the two below alone, as
// here the search is the plan's.
pub fn check_passes(
    made: &Made,
    slots: &mut [[u64; WORDS]; SLOTS],
    spare: &mut [u64; WORDS],
) -> Result<(), Refusal>
    requires place_value { meets_place_rule made.now.plan.search.template made.now.plan.search.place ≡ true }
    ensures result_value { told_checked result ≡ check13 made.now.plan.letters.now made.now.plan.layout.lengths.now made.now.plan.search }
    ensures path { 1 ≤ made.now.plan.search.place.letters → Path made.now.plan.search.template made.now.plan.layout.lengths.now made.now.plan.letters.now slots.new made.now.plan.search.place.letters made.now.plan.search.place.number }
{
    let search = made.plan.search;
    let through = match search.place.letters {
        0 => search.place.number == 0,
        _ => frequent(search.quorum, path::replay(made, slots, spare)),
    };
    Refusal::NotACandidate.when(!through)
}

// Whether the place of a search, one with letters, is a candidate, for a caller that goes on with no leg. The tables are made for it
// alone, with two slots instead of a path, and one row for each letter, which is shifted as it is used.
fn candidate_alone(set: &Sequences, s: Search) -> bool
    requires sound_set { SoundSet set.now.letters.now set.now.lengths.now }
    requires sound_template { SoundTemplate s.template }
    requires place_value { meets_place_rule s.template s.place ≡ true }
    requires le_letters { 1 ≤ s.place.letters }
    ensures { result ≡ is_passing set.now.letters.now set.now.lengths.now s }
{
    let mut inside = [Spot::FIRST; matching::LETTERS];
    let mut firsts = [0u32; matching::FIRSTS];
    let mut offsets = [0u32; matching::OFFSETS];
    let mut bases = [[0u64; WORDS]; matching::BASES];
    let mut letter = [0u64; WORDS];
    let mut even = [0u64; WORDS];
    let mut odd = [0u64; WORDS];
    let task = Task {
        search: s,
        set: *set,
    };
    let plan = tables::begin(
        &task,
        &mut inside,
        &mut firsts,
        &mut offsets,
        &mut bases,
        &mut even,
    );
    let found = path::shorter(&plan, &bases, &mut letter, &mut even, &mut odd);
    frequent(s.quorum, found)
}

// 13, for a caller that goes on with no leg: the ended place and a place of one letter need no table.
pub fn check_13(set: &Sequences, s: Search) -> Result<(), Refusal>
    requires sound_set { SoundSet set.now.letters.now set.now.lengths.now }
    requires sound_template { SoundTemplate s.template }
    requires place_value { meets_place_rule s.template s.place ≡ true }
    ensures { told_checked result ≡ check13 set.now.letters.now set.now.lengths.now s }
{
    let size = s.place.letters;
    let alone = match size {
        0 => s.place.number == 0,
        1 => true,
        _ => candidate_alone(set, s),
    };
    Refusal::NotACandidate.when(!alone)
}

// 1 to 4, 5, 23, 6, 7, 8, 24, 12, 9: what a leg or a save checks of its search before 13.
#[tactic(auto, using(rules::proofs::Verdicts::in_turn), unfolding(crate::specs::SearchOrder::before_13))]
pub fn check_before_13(set: &Sequences, s: Search) -> Result<(), Refusal>
    ensures { told_checked result ≡ before_13 set.now.letters.now set.now.lengths.now s }
{
    checks::check_set(set)?;
    checks::check_value(set, s)
}

// All that a save checks of its search.
pub fn check_alone(set: &Sequences, s: Search) -> Result<(), Refusal>
    ensures { told_checked result ≡ first (search_checks set.now.letters.now set.now.lengths.now s) }
{
    check_before_13(set, s)?;
    check_13(set, s)
}
