// An inner crate: the records of a save. Bytes are read as a search, and checked up to 13; the records of a search that passed its
// checks are written.
#![tactic(auto)]

mod blanks;
mod kinds;
mod read;
mod sizes;
mod write;

ghost use Rattle.std.specs.Prelude.{◌≡◌};
ghost use Rattle.records.specs.ReadWrite.{read_rule};
ghost use Rattle.records.specs.RestoreOrder.{saved_checks_before_13};
ghost use Rattle.rules.specs.Calls.{unless};
ghost use Rattle.rules.specs.Refusals.{first};
ghost use Rattle.rules.specs.Saved.{read_search};
ghost use Rattle.rules.specs.Told.{told_answer, told_checked};

use blanks::check_blanks;
use checks::{check_count, check_end, check_set};
use kinds::check_kinds;
use read::SavedBytes;
use rules::{Refusal, Search, Sequences};
use sizes::{check_adds_up, check_sized};
pub use write::write_search;

// 10, 5, 11, 21, 22, 23, 6, 7, 8, 24, 12, 9: a restore's order before 13, where the sequences passed 1 to 4.
#[tactic(auto, using(rules::proofs::Verdicts::in_turn), unfolding(rules::specs::Refusals::first))]
fn check_saved(set: &Sequences, bytes: SavedBytes<'_>, s: Search) -> Result<(), Refusal>
    requires { s ≡ read_search bytes.0.now }
    ensures { told_checked result ≡ first (saved_checks_before_13 set.now.letters.now set.now.lengths.now bytes.entry.0.now) }
{
    check_sized(bytes)?;
    check_count(s.template)?;
    check_kinds(bytes)?;
    check_blanks(bytes)?;
    check_adds_up(bytes, s)?;
    check_end(set, s)
}

// The search that saved bytes hold, over the same sequences, or what they are refused with before 13: whether the search passes through
// its place is left to the caller.
#[tactic(auto, using(rules::proofs::Verdicts::in_turn, crate::proofs::Before::in_turn))]
pub fn read_saved(set: &Sequences, bytes: &[u8]) -> Result<Search, Refusal>
    ensures { told_answer result ≡ read_rule set.now.letters.now set.now.lengths.now bytes.now }
{
    check_set(set)?;
    let bytes = SavedBytes(bytes);
    let s = bytes.search();
    check_saved(set, bytes, s)?;
    Ok(s)
}
