// The seven public calls for C and Rust, as numbers and slices; include/tulfasheq.h says how a caller sees them. A search is passed
// as its saved bytes, and a template as its profile, 0 or 1, its number of components, its shape: length, low and high of each slot in
// turn, of which there are six, and the allowance of each; what is past the end of a shape or of the allowances is 0. Each answers 0, or
// the number of the refusal with its place in `place`; in a refusal all counts are 0, and numbers that a call moves on stay.
#![tactic(auto)]

mod chain;
mod shape;
mod told;

ghost use Rattle.std.specs.Prelude.{◌≡◌};
ghost use Rattle.exports.specs.Exported.{outcome, leg_of, search_of, begin_outcome, leg_outcome, restore_of, restore_outcome, save_outcome, recover_outcome, join_outcome, fasta_of, fasta_outcome};
ghost use Rattle.exports.specs.Numbers.{count_answer, page_answer, stopped_answer, restored_answer};

use rules::{Place, Search, SequenceSet, Sequences};
use told::{Count, Found, Page, Restored};

// A new search, saved to `saved`; `size` is the save's length.
#[tactic(auto, using(crate::proofs::CheckedOnce::begun_written), unfolding(crate::specs::Exported::begin_outcome))]
#[unsafe(no_mangle)]
pub extern "C" fn tulfasheq_begin(
    letters: &[u8],
    lengths: &[u32],
    profile: u16,
    components: u16,
    shape: &[u16],
    allowances: &[u16],
    quorum: u64,
    saved: &mut [u8],
    place: &mut u64,
    size: &mut u64,
) -> u64
    ensures { outcome (count_answer result place.new size.new) saved.new ≡ begin_outcome letters.now lengths.now profile components shape.now allowances.now quorum saved.old }
{
    let set = Sequences { letters, lengths };
    let t = shape::read(profile, components, shape, allowances);
    let told = Count::from(chain::begin(&set, profile, t, quorum, saved));
    *place = told.place;
    *size = told.count;
    told.number
}

// A leg of the search that `saved` holds, which is saved there again at its new place: as far as the budget and the shortest
// table allow. `stop` is 1 where the search has ended, 2 where the budget is spent, 3 where the tables are full.
#[unsafe(no_mangle)]
pub extern "C" fn tulfasheq_leg(
    letters: &[u8],
    lengths: &[u32],
    saved: &mut [u8],
    budget: u64,
    motifs: &mut [u64],
    supports: &mut [u32],
    weights: &mut [u64],
    place: &mut u64,
    stop: &mut u64,
    steps: &mut u64,
    rows: &mut u64,
) -> u64
    ensures { leg_of (stopped_answer result place.new stop.new steps.new rows.new) saved.new motifs.new supports.new weights.new ≡ leg_outcome letters.now lengths.now saved.old budget motifs.old supports.old weights.old }
{
    let set = Sequences { letters, lengths };
    let told = chain::leg(&set, budget, saved, motifs, supports, weights);
    *place = told.place;
    *stop = told.stop;
    *steps = told.steps;
    *rows = told.rows;
    told.number
}

// The search that `saved` holds: its template, with its profile and allowances, its quorum, the size of its set, and the letters and
// number of its next candidate.
#[tactic(auto, unfolding(crate::specs::Exported::restore_outcome))]
#[unsafe(no_mangle)]
pub extern "C" fn tulfasheq_restore(
    letters: &[u8],
    lengths: &[u32],
    saved: &[u8],
    place: &mut u64,
    profile: &mut u16,
    components: &mut u16,
    shape: &mut [u16],
    allowances: &mut [u16],
    quorum: &mut u64,
    sequences: &mut u32,
    total: &mut u32,
    next_letters: &mut u8,
    next_number: &mut u64,
) -> u64
    ensures { restore_of (restored_answer result place.new profile.new components.new quorum.new sequences.new total.new next_letters.new next_number.new) shape.new allowances.new ≡ restore_outcome letters.now lengths.now saved.now shape.old allowances.old }
{
    let set = Sequences { letters, lengths };
    let answer = saved::restore(&set, saved);
    let told = Restored::from(answer);
    chain::write(answer, shape, allowances);
    *place = told.place;
    *profile = told.profile;
    *components = told.components;
    *quorum = told.quorum;
    *sequences = told.sequences;
    *total = told.total;
    *next_letters = told.letters;
    *next_number = told.candidate;
    told.number
}

// A search of these numbers, saved to `out`; `size` is the save's length.
#[tactic(auto, unfolding(crate::specs::Exported::save_outcome))]
#[unsafe(no_mangle)]
pub extern "C" fn tulfasheq_save(
    letters: &[u8],
    lengths: &[u32],
    profile: u16,
    components: u16,
    shape: &[u16],
    allowances: &[u16],
    quorum: u64,
    sequences: u32,
    total: u32,
    next_letters: u8,
    next_number: u64,
    out: &mut [u8],
    place: &mut u64,
    size: &mut u64,
) -> u64
    ensures { outcome (count_answer result place.new size.new) out.new ≡ save_outcome letters.now lengths.now profile (search_of profile components shape.now allowances.now quorum sequences total next_letters next_number) out.old }
{
    let set = Sequences { letters, lengths };
    let template = shape::read(profile, components, shape, allowances);
    let asked = SequenceSet::new(sequences, total);
    let next = Place::new(next_letters, next_number);
    let search = Search::new(template, quorum, asked, next);
    let told = Count::from(chain::save(&set, profile, search, out));
    *place = told.place;
    *size = told.count;
    told.number
}

// The occurrences of a motif, from row `first` of their list on: rows of a sequence's number and a start for each component.
// `rows` is how many were written to `out`, `length` how many the list has.
#[tactic(auto, unfolding(crate::specs::Exported::recover_outcome))]
#[unsafe(no_mangle)]
pub extern "C" fn tulfasheq_recover(
    letters: &[u8],
    lengths: &[u32],
    profile: u16,
    components: u16,
    shape: &[u16],
    allowances: &[u16],
    motif: u64,
    first: u64,
    out: &mut [u32],
    place: &mut u64,
    rows: &mut u64,
    length: &mut u64,
) -> u64
    ensures { outcome (page_answer result place.new rows.new length.new) out.new ≡ recover_outcome letters.now lengths.now profile components shape.now allowances.now motif first out.old }
{
    let set = Sequences { letters, lengths };
    let t = shape::read(profile, components, shape, allowances);
    let told = Page::from(chain::recover(&set, profile, t, motif, first, out));
    *place = told.place;
    *rows = told.rows;
    *length = told.length;
    told.number
}

// The positions of `first` that have a partner in `second`, one that starts after a head of so many letters and a gap of `low` to
// `high`. `kept` is how many were written to `out`.
#[tactic(auto, unfolding(crate::specs::Exported::join_outcome))]
#[unsafe(no_mangle)]
pub extern "C" fn tulfasheq_join(
    first: &[u32],
    second: &[u32],
    head: u16,
    low: u16,
    high: u16,
    out: &mut [u32],
    place: &mut u64,
    kept: &mut u64,
) -> u64
    ensures { outcome (count_answer result place.new kept.new) out.new ≡ join_outcome first.now second.now head low high out.old }
{
    let told = Count::from(joins::join(first, second, head, low, high, out));
    *place = told.place;
    *kept = told.count;
    told.number
}

// The next record of a FASTA file from the cursor `at` on: its letters go to `letters` behind the `used` that it holds, their
// number to `lengths` behind its `count` rows, and the three move on past them. `found` is 1, and the name is the file's part from
// `name_start` to `name_end`. Where no record is left, `found` is 0; there and in a refusal the three stay, and both tables.
#[tactic(auto, unfolding(crate::specs::Exported::fasta_outcome))]
#[unsafe(no_mangle)]
pub extern "C" fn tulfasheq_fasta(
    file: &[u8],
    letters: &mut [u8],
    lengths: &mut [u32],
    at: &mut u64,
    used: &mut u64,
    count: &mut u64,
    place: &mut u64,
    found: &mut u64,
    name_start: &mut u64,
    name_end: &mut u64,
) -> u64
    ensures { fasta_of result place.new found.new name_start.new name_end.new at.new used.new count.new letters.new lengths.new ≡ fasta_outcome file.now letters.old lengths.old at.old used.old count.old }
{
    let step = fasta::next_at(
        file,
        *at as usize,
        letters,
        *used as usize,
        lengths,
        *count as usize,
    );
    let told = Found::from(step.handed);
    *at = step.at as u64;
    *used += told.letters;
    *count += told.found;
    *place = told.place;
    *found = told.found;
    *name_start = told.name_start;
    *name_end = told.name_end;
    told.number
}
