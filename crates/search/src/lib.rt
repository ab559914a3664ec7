// The search for frequent motifs, as a caller sees it.
#![tactic(auto)]

ghost use Rattle.std.specs.Prelude.{◌≡◌};
ghost use Rattle.rules.specs.Calls.{begin_rule, leg_rule};
ghost use Rattle.rules.specs.Told.{told_answer, told_leg};

use rules::{Leg, Place, Refusal, Search, SequenceSet, Sequences, Template};

// A new search for the motifs of a template that at least `quorum` of the sequences hold. The sequences are lent as one buffer
// of letters and a table of their lengths. What breaks a rule is refused by the first number, of 1 to 8, 24 and 9, that applies;
// otherwise the search stands at its first candidate.
pub fn begin(set: &Sequences, template: Template, quorum: u64) -> Result<Search, Refusal>
    ensures { told_answer result ≡ begin_rule set.now.letters.now set.now.lengths.now template quorum }
{
    checks::check_new(set, template, quorum)?;
    let size = SequenceSet::new(set.lengths.len() as u32, set.letters.len() as u32);
    Ok(Search::new(template.trim(), quorum, size, Place::first()))
}

// A leg of a search: from its place on, as far as a budget of steps and the room in three tables allow. A row for each motif
// whose support reaches the quorum, in letter order: its number, its support, its weighted support, from row 0 on; the rest of
// each table stays. It answers why it stopped, its steps, its rows, and the search at its new place. A search that breaks a rule
// is refused by the first number, of 1 to 4, 5, 23, 6, 7, 8, 24, 12, 9 and 13, that applies, handed back, and nothing is written.
pub fn leg(
    set: &Sequences,
    search: Search,
    budget: u64,
    motifs: &mut [u64],
    supports: &mut [u32],
    weights: &mut [u64],
) -> Leg
    ensures result_value { told_leg result ≡ (leg_rule set.now.letters.now set.now.lengths.now search budget motifs.old supports.old weights.old).told }
    ensures motifs_after { motifs.new ≡ (leg_rule set.now.letters.now set.now.lengths.now search budget motifs.old supports.old weights.old).motifs }
    ensures supports_after { supports.new ≡ (leg_rule set.now.letters.now set.now.lengths.now search budget motifs.old supports.old weights.old).supports }
    ensures weights_after { weights.new ≡ (leg_rule set.now.letters.now set.now.lengths.now search budget motifs.old supports.old weights.old).weights }
{
    match places::check_before_13(set, search) {
        Err(why) => Leg::refused(search, why),
        Ok(()) => legs::leg(set, search, budget, motifs, supports, weights),
    }
}
