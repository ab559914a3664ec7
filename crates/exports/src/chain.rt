// What goes between two calls: a profile's number is checked before one, a new search is written, one that was read runs a leg and is
// written again, and the shape and allowances of a restored one are told. Nothing is checked twice.
ghost use Rattle.std.specs.Prelude.{◌≡◌};
ghost use Rattle.exports.specs.Between.{write_begun, saved_after};
ghost use Rattle.exports.specs.Exported.{no_profile, profile_check, checked_written, leg_of, leg_outcome, table_after};
ghost use Rattle.exports.specs.Shape.{shape_of, allowances_of};
ghost use Rattle.records.specs.ReadWrite.{read_rule};
ghost use Rattle.rules.specs.Calls.{on_refusal, begin_rule, save_rule, recover_rule};
ghost use Rattle.rules.specs.Sound.{SoundTemplate};
ghost use Rattle.rules.specs.Told.{gives, refuses, told_checked, told_answer};
ghost use Rattle.rules.specs.declared.Search.{Search};

use crate::shape;
use crate::told::Stopped;
use checks::{check_count, check_set};
use rules::{Leg, Profile, RecordNumber, Recovered, Refusal, Search, Sequences, Template};

// What a call with a number that is no profile's is refused with: that comes after the sequences and the number of components.
#[tactic(auto, using(rules::proofs::Verdicts::in_turn), unfolding(crate::specs::Exported::no_profile))]
fn no_profile(set: &Sequences, template: Template) -> Result<(), Refusal>
    ensures { told_checked result ≡ no_profile set.now.letters.now set.now.lengths.now template }
{
    check_set(set)?;
    check_count(template)?;
    Err(Refusal::SavedBlank(RecordNumber(0)))
}

// A number that is no profile's is refused.
#[tactic(auto, unfolding(crate::specs::Exported::profile_check))]
fn check_profile(set: &Sequences, profile: u16, template: Template) -> Result<(), Refusal>
    ensures { told_checked result ≡ profile_check set.now.letters.now set.now.lengths.now profile template }
{
    match Profile::try_from(u64::from(profile)) {
        Ok(_) => Ok(()),
        Err(_) => no_profile(set, template),
    }
}

// Begins a search, unless its profile is refused, and writes it: it was checked as it was begun.
#[tactic(auto, using(rules::proofs::Verdicts::in_turn))]
pub fn begin(
    set: &Sequences,
    profile: u16,
    t: Template,
    quorum: u64,
    saved: &mut [u8],
) -> Result<usize, Refusal>
    ensures result_value { told_answer result ≡ (write_begun (on_refusal (profile_check set.now.letters.now set.now.lengths.now profile t) refuses (begin_rule set.now.letters.now set.now.lengths.now t quorum)) saved.old).told }
    ensures saved_after { saved.new ≡ (write_begun (on_refusal (profile_check set.now.letters.now set.now.lengths.now profile t) refuses (begin_rule set.now.letters.now set.now.lengths.now t quorum)) saved.old).out }
{
    check_profile(set, profile, t)?;
    let begun = search::begin(set, t, quorum)?;
    records::write_search(begun, saved)
}

// Saves a search, unless its profile is refused.
#[tactic(auto, using(rules::proofs::Verdicts::in_turn))]
pub fn save(set: &Sequences, profile: u16, search: Search, out: &mut [u8]) -> Result<usize, Refusal>
    ensures result_value { told_answer result ≡ (checked_written (profile_check set.now.letters.now set.now.lengths.now profile search.template) (save_rule set.now.letters.now set.now.lengths.now search out.old) out.old).told }
    ensures out_after { out.new ≡ (checked_written (profile_check set.now.letters.now set.now.lengths.now profile search.template) (save_rule set.now.letters.now set.now.lengths.now search out.old) out.old).out }
{
    check_profile(set, profile, search.template)?;
    saved::save(set, search, out)
}

// Recovers the occurrences of a motif, unless its profile is refused.
#[tactic(auto, using(rules::proofs::Verdicts::in_turn))]
pub fn recover(
    set: &Sequences,
    profile: u16,
    template: Template,
    motif: u64,
    first: u64,
    out: &mut [u32],
) -> Result<Recovered, Refusal>
    ensures result_value { told_answer result ≡ (checked_written (profile_check set.now.letters.now set.now.lengths.now profile template) (recover_rule set.now.letters.now set.now.lengths.now template motif first out.old) out.old).told }
    ensures out_after { out.new ≡ (checked_written (profile_check set.now.letters.now set.now.lengths.now profile template) (recover_rule set.now.letters.now set.now.lengths.now template motif first out.old) out.old).out }
{
    check_profile(set, profile, template)?;
    recovery::recover(set, template, motif, first, out)
}

// Writes the search that a leg leaves, and nothing where the leg was refused.
fn save_left(leg: Leg, saved: &mut [u8])
    requires { SoundTemplate leg.search.template }
    ensures { saved.new ≡ saved_after (told_answer leg.answer) leg.search saved.old }
{
    if leg.answer.is_ok() {
        let _ = records::write_search(leg.search, saved);
    }
}

// Runs a leg of the search that was read of `saved`, and writes it there at its new place. All but 13 was checked as it was read, and
// the leg checks that. What it leaves needs no check: the search passes through the place, and its save is as long as the one that it
// was read of.
fn run(
    set: &Sequences,
    search: Search,
    budget: u64,
    saved: &mut [u8],
    motifs: &mut [u64],
    supports: &mut [u32],
    weights: &mut [u64],
) -> Stopped
    requires { gives search ≡ read_rule set.now.letters.now set.now.lengths.now saved.old }
    ensures { leg_of result saved.new motifs.new supports.new weights.new ≡ leg_outcome set.now.letters.now set.now.lengths.now saved.old budget motifs.old supports.old weights.old }
{
    let leg = legs::leg(set, search, budget, motifs, supports, weights);
    save_left(leg, saved);
    Stopped::from(leg)
}

// Runs a leg of the search that `saved` holds.
#[tactic(auto, using(records::proofs::Before::refused_before), unfolding(crate::specs::Exported::leg_outcome, crate::specs::Exported::leg_from))]
pub fn leg(
    set: &Sequences,
    budget: u64,
    saved: &mut [u8],
    motifs: &mut [u64],
    supports: &mut [u32],
    weights: &mut [u64],
) -> Stopped
    ensures { leg_of result saved.new motifs.new supports.new weights.new ≡ leg_outcome set.now.letters.now set.now.lengths.now saved.old budget motifs.old supports.old weights.old }
{
    match records::read_saved(set, saved) {
        Ok(search) => run(set, search, budget, saved, motifs, supports, weights),
        Err(why) => Stopped::from(why),
    }
}

// Writes the shape and the allowances of a search that was restored.
#[tactic(auto, unfolding(crate::specs::Exported::table_after))]
pub fn write(restored: Result<Search, Refusal>, shape: &mut [u16], allowances: &mut [u16])
    ensures shape_after { shape.new ≡ table_after shape_of (told_answer restored) shape.old }
    ensures allowances_after { allowances.new ≡ table_after allowances_of (told_answer restored) allowances.old }
{
    if let Ok(search) = restored {
        shape::write(search.template, shape, allowances);
    }
}
