// 10 and 22: the length of saved bytes, and K.
ghost use Rattle.std.specs.Prelude.{◌≡◌};
ghost use Rattle.rules.specs.Refusals.{check10, check22};
ghost use Rattle.rules.specs.Saved.{read_search, is_sized};
ghost use Rattle.rules.specs.Told.{told_checked};

use crate::read::SavedBytes;
use rules::{Record, RecordNumber, Refusal, Search};

// The bytes are as long as the records that they count, of which there are at least two.
#[tactic(auto, unfolding(rules::specs::Saved::is_sized))]
fn sized(bytes: SavedBytes<'_>) -> bool
    ensures { result ≡ is_sized bytes.entry.0.now }
{
    let n = bytes.0.len();
    let count = bytes.record_count();
    let all = Record::BYTES * usize::from(count);
    (Record::BYTES <= n) & (Record::EXTRA <= count) & (n == all)
}

// 10: bytes that are not as long as the records that they count.
#[tactic(auto, unfolding(rules::specs::Refusals::check10))]
pub(crate) fn check_sized(bytes: SavedBytes<'_>) -> Result<(), Refusal>
    ensures { told_checked result ≡ check10 bytes.entry.0.now }
{
    Refusal::SavedSize.when(!sized(bytes))
}

// 22: a K, as the size record has it, that is not the sum of the lengths. The bytes hold this search.
#[tactic(auto, unfolding(rules::specs::Refusals::check22, rules::specs::Saved::read_search, rules::specs::Saved::adds_up))]
pub(crate) fn check_adds_up(bytes: SavedBytes<'_>, s: Search) -> Result<(), Refusal>
    requires { s ≡ read_search bytes.0.now }
    ensures { told_checked result ≡ check22 bytes.entry.0.now }
{
    let k = bytes.record(RecordNumber(0)).field(6, 2);
    Refusal::SavedSum.when(k != u64::from(s.template.letters()))
}
