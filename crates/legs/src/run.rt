// A leg of a search that the checks accept.
ghost use Rattle.std.specs.Prelude.{true, Some, ◌≡◌, ℕ, ◌+◌, ◌-◌, ◌/◌, ◌^◌, ◌≤◌, ◌<◌, leb, length, set};
ghost use Rattle.rules.specs.Calls.{moved, stretch, supports_of, weights_of};
ghost use Rattle.rules.specs.Lists.{if, put};
ghost use Rattle.rules.specs.Profile.{base_of};
ghost use Rattle.rules.specs.Refusals.{first, search_checks};
ghost use Rattle.rules.specs.Sequences.{sequences};
ghost use Rattle.rules.specs.Sound.{SoundTemplate};
ghost use Rattle.rules.specs.Support.{weight, parts};
ghost use Rattle.rules.specs.Template as templates;
ghost use Rattle.rules.specs.Told.{fine, told_leg};
ghost use Rattle.rows.specs.Set.{Row};
ghost use Rattle.matching.specs.Path.{prefix_starts, Path};
ghost use Rattle.matching.specs.Weights.{prefix_of, Counted};
ghost use Rattle.legs.specs.AcceptedLeg.{room_of, told_of};

use super::step::Candidate;
use matching::made::Weighing;
use matching::{SLOTS, WORDS, path, weights};
use rules::{Leg, Place, Search, SequenceSet, Stop, Template};

// What a leg answers that stopped at a place.
pub fn stopped(stop: Stop, steps: u64, rows: usize, s: Search, place: Place) -> Leg
    ensures { result ≡ record { answer = Ok stop; steps = steps; rows = rows; search = moved s place } }
{
    Leg {
        answer: Ok(stop),
        steps,
        rows,
        search: Search { place, ..s },
    }
}

// How many letters a motif's last component has.
fn last_letters(template: Template) -> u32
    requires { SoundTemplate template }
    ensures { ((m : ℕ) → m / base_of template ^ result ≡ prefix_of template m) × (1 ≤ result) }
{
    let components = template.components();
    let last = template.count as usize - 1;
    let component = components[last];
    component.length as u32
}

// In how many ways the components before a motif's last can be placed, as `Counted` has it, and after which prefix, once they are counted.
#[derive(Drop)]
struct CountedWays {
    counted: Option<u64>,
    counts: [u64; SequenceSet::LETTERS],
}

// Writes the row of a listed motif, whose path and row these are: its number, its support and its weighted support. It answers how many
// rows there are then.
fn list(
    weighing: &Weighing,
    motif: u64,
    prefix: u64,
    found: u32,
    rows: usize,
    motifs: &mut [u64],
    supports: &mut [u32],
    weights: &mut [u64],
    slots: &[[u64; WORDS]; SLOTS],
    work: &[u64; WORDS],
    spare: &mut [u64; WORDS],
    ways: &mut CountedWays,
) -> usize
    requires rows_in_bounds { (rows < length motifs.old) × (rows < length supports.old) × (rows < length weights.old) }
    requires motif_bound { (motif < base_of weighing.now.made.plan.search.template ^ weighing.now.made.plan.depth) × (prefix ≡ prefix_of weighing.now.made.plan.search.template motif) }
    requires path { Path weighing.now.made.plan.search.template weighing.now.made.plan.layout.lengths.now weighing.now.made.plan.letters.now slots.now weighing.now.made.plan.depth motif }
    requires row { Row (prefix_starts weighing.now.made.plan.search.template weighing.now.made.plan.depth motif) weighing.now.made.plan.layout.lengths.now weighing.now.made.plan.letters.now work.now }
    requires counted { Counted weighing.now.made.plan.search.template weighing.now.made.plan.layout.lengths.now weighing.now.made.plan.letters.now ways.old.counted ways.old.counts }
    ensures value { result ≡ rows + 1 }
    ensures motifs_after { motifs.new ≡ set motifs.old rows motif }
    ensures supports_after { supports.new ≡ set supports.old rows found }
    ensures weights_after { weights.new ≡ set weights.old rows (weight (parts weighing.now.made.plan.search.template (templates.size weighing.now.made.plan.search.template) motif) (sequences weighing.now.made.plan.letters.now weighing.now.made.plan.layout.lengths.now)) }
    ensures counted_2 { Counted weighing.now.made.plan.search.template weighing.now.made.plan.layout.lengths.now weighing.now.made.plan.letters.now ways.new.counted ways.new.counts }
{
    let weight = weights::weight(
        weighing,
        motif,
        prefix,
        ways.counted,
        slots,
        work,
        spare,
        &mut ways.counts,
    );
    ways.counted = Some(prefix);
    motifs[rows] = motif;
    supports[rows] = found;
    weights[rows] = weight;
    rows + 1
}

// A leg of a search that the checks accept. Before each candidate, in this order: none left, ended; the budget used, spent; a
// motif and the tables full, full, and it is not counted. Otherwise a step, with a row if the candidate is a motif. The slots have the path
// of the search's place; they and the two rows after them are for the work, and no struct, as `path::examine` says.
pub fn run(
    weighing: &Weighing,
    budget: u64,
    motifs: &mut [u64],
    supports: &mut [u32],
    weights: &mut [u64],
    slots: &mut [[u64; WORDS]; SLOTS],
    work: &mut [u64; WORDS],
    spare: &mut [u64; WORDS],
) -> Leg
    requires s_value { first (search_checks weighing.now.made.plan.letters.now weighing.now.made.plan.layout.lengths.now weighing.now.made.plan.search) ≡ fine }
    requires path { 1 ≤ weighing.now.made.plan.search.place.letters → Path weighing.now.made.plan.search.template weighing.now.made.plan.layout.lengths.now weighing.now.made.plan.letters.now slots.old weighing.now.made.plan.search.place.letters weighing.now.made.plan.search.place.number }
    ensures result_value { told_leg result ≡ told_of weighing.now.made.plan.search (stretch weighing.now.made.plan.letters.now weighing.now.made.plan.layout.lengths.now weighing.now.made.plan.search budget (room_of motifs.old supports.old weights.old)) }
    ensures motifs_after { motifs.new ≡ put (stretch weighing.now.made.plan.letters.now weighing.now.made.plan.layout.lengths.now weighing.now.made.plan.search budget (room_of motifs.old supports.old weights.old)).motifs motifs.old }
    ensures supports_after { supports.new ≡ put (supports_of weighing.now.made.plan.letters.now weighing.now.made.plan.layout.lengths.now weighing.now.made.plan.search (stretch weighing.now.made.plan.letters.now weighing.now.made.plan.layout.lengths.now weighing.now.made.plan.search budget (room_of motifs.old supports.old weights.old)).motifs) supports.old }
    ensures weights_after { weights.new ≡ put (weights_of weighing.now.made.plan.letters.now weighing.now.made.plan.layout.lengths.now weighing.now.made.plan.search (stretch weighing.now.made.plan.letters.now weighing.now.made.plan.layout.lengths.now weighing.now.made.plan.search budget (room_of motifs.old supports.old weights.old)).motifs) weights.old }
{
    let s = weighing.made.plan.search;
    let quorum = s.quorum;
    let room = motifs.len().min(supports.len()).min(weights.len());
    let profile = s.template.profile;
    let last = last_letters(s.template);
    let mut place = s.place;
    let mut steps: u64 = 0;
    let mut rows: usize = 0;
    let mut ways = CountedWays {
        counted: None,
        counts: [0; SequenceSet::LETTERS],
    };
    // From candidate to candidate, each of which the step before finds; the steps are counted beside it.
    while place.letters > 0 {
        if steps == budget {
            return stopped(Stop::Spent, steps, rows, s, place);
        }
        let found = path::examine(&weighing.made, place, quorum as u32, slots, work, spare);
        let frequent = quorum <= found as u64;
        let hit = (place.letters == weighing.made.plan.depth) & frequent;
        if hit & (rows == room) {
            return stopped(Stop::Full, steps, rows, s, place);
        }
        if hit {
            let prefix = profile.prefix(place.number, last);
            rows = list(
                weighing,
                place.number,
                prefix,
                found,
                rows,
                motifs,
                supports,
                weights,
                slots,
                work,
                spare,
                &mut ways,
            );
        }
        steps += 1;
        let candidate = Candidate {
            plan: &weighing.made.plan,
            place,
        };
        place = candidate.next_place(frequent);
    }
    stopped(Stop::Ended, steps, rows, s, place)
}
