// Save and restore: a search as bytes, and bytes as a search. Both check all that they are given, in the paper's order.
#![tactic(auto)]

ghost use Rattle.std.specs.Prelude.{◌≡◌};
ghost use Rattle.rules.specs.Calls.{save_rule, restore_rule};
ghost use Rattle.rules.specs.Told.{told_answer};

use places::{check_13, check_alone};
use records::{read_saved, write_search};
use rules::{Refusal, Search, Sequences};

// Restores a search from saved bytes, over the same sequences: it stands where it stood when it was saved, an ended one as
// ended. Any other bytes are refused, by the first check that they fail.
#[tactic(auto, using(rules::proofs::Verdicts::in_turn, records::proofs::Before::left_to_13, records::proofs::Before::refused_before))]
pub fn restore(set: &Sequences, bytes: &[u8]) -> Result<Search, Refusal>
    ensures { told_answer result ≡ restore_rule set.now.letters.now set.now.lengths.now bytes.now }
{
    let search = read_saved(set, bytes)?;
    check_13(set, search)?;
    Ok(search)
}

// Saves a search over its sequences: writes its bytes to the front of `out`, the rest of which stays, and answers how many they
// are. Refused, with nothing written: sequences or a search that fail their checks, and a buffer shorter than the save.
#[tactic(auto, using(rules::proofs::Verdicts::in_turn, crate::proofs::RoomLast::save_told))]
pub fn save(set: &Sequences, search: Search, out: &mut [u8]) -> Result<usize, Refusal>
    ensures result_value { told_answer result ≡ (save_rule set.now.letters.now set.now.lengths.now search out.old).told }
    ensures out_after { out.new ≡ (save_rule set.now.letters.now set.now.lengths.now search out.old).out }
{
    check_alone(set, search)?;
    write_search(search, out)
}
