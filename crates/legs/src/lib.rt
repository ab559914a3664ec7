// An inner crate: a leg of a search that passes every check before 13, for a caller that has made those.
#![tactic(auto)]

mod run;
mod step;

ghost use Rattle.std.specs.Prelude.{◌≡◌};
ghost use Rattle.places.specs.SearchOrder.{before_13};
ghost use Rattle.rules.specs.Calls.{leg_rule};
ghost use Rattle.rules.specs.Told.{fine, told_leg};

use matching::made::{Spot, Task};
use matching::{WORDS, tables};
use rules::{Leg, Search, Sequences, Stop};

// A leg of a search, as `search::leg` promises it, of which 13 alone is left to check. A search that has ended is answered with no table.
// Else the tables that it works in are its own, and have the path of its place once 13 is checked: it goes on from there. The three that
// the caller lends are no struct: C lends three, and of a struct of them each contract had to say besides that they stay the caller's.
pub fn leg(
    set: &Sequences,
    search: Search,
    budget: u64,
    motifs: &mut [u64],
    supports: &mut [u32],
    weights: &mut [u64],
) -> Leg
    requires { before_13 set.now.letters.now set.now.lengths.now search ≡ fine }
    ensures result_value { told_leg result ≡ (leg_rule set.now.letters.now set.now.lengths.now search budget motifs.old supports.old weights.old).told }
    ensures motifs_after { motifs.new ≡ (leg_rule set.now.letters.now set.now.lengths.now search budget motifs.old supports.old weights.old).motifs }
    ensures supports_after { supports.new ≡ (leg_rule set.now.letters.now set.now.lengths.now search budget motifs.old supports.old weights.old).supports }
    ensures weights_after { weights.new ≡ (leg_rule set.now.letters.now set.now.lengths.now search budget motifs.old supports.old weights.old).weights }
{
    let place = search.place;
    let ended = (place.letters == 0) & (place.number == 0);
    if ended {
        return run::stopped(Stop::Ended, 0, 0, search, place);
    }
    let mut inside = [Spot::FIRST; matching::LETTERS];
    let mut firsts = [0u32; matching::FIRSTS];
    let mut offsets = [0u32; matching::OFFSETS];
    let mut standing = [[0u64; WORDS]; matching::STANDING];
    let mut slots = [[0u64; WORDS]; matching::SLOTS];
    let mut work = [0u64; WORDS];
    let mut spare = [0u64; WORDS];
    let task = Task { search, set: *set };
    let weighing = tables::make(
        &task,
        &mut inside,
        &mut firsts,
        &mut offsets,
        &mut standing,
        &mut slots[0],
        &mut work,
    );
    match places::check_passes(&weighing.made, &mut slots, &mut spare) {
        Err(why) => Leg::refused(search, why),
        Ok(()) => run::run(
            &weighing, budget, motifs, supports, weights, &mut slots, &mut work, &mut spare,
        ),
    }
}
