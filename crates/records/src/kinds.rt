// 11: each record's kind, and a component's number. The kinds are numbers and no enum: they are bytes of the file, and `limits` of the
// crate `rules` says which.
ghost use Rattle.std.specs.Prelude.{◌≡◌};
ghost use Rattle.rules.specs.Refusals.{check11};
ghost use Rattle.rules.specs.Saved.{has_kind};
ghost use Rattle.rules.specs.Told.{told_checked};

use crate::read::{SavedBytes, SavedRecord};
use rules::{Record, RecordNumber, Refusal};

impl<'a> SavedRecord<'a> {
    // As record i of a save with n components it has its kind, and a component's its number.
    #[tactic(auto, unfolding(rules::specs::Saved::has_kind, rules::specs::Saved::has_size_kind, rules::specs::Saved::has_component_kind, rules::specs::Saved::has_place_kind))]
    fn has_kind(self, n: u32, i: u32) -> bool
        ensures { result ≡ has_kind n i self.entry.0.now }
    {
        let kind = self.field(0, 1);
        if i == 0 {
            return kind == u64::from(Record::SIZE);
        }
        if i <= n {
            return (kind == u64::from(Record::COMPONENT)) & (self.field(1, 1) == u64::from(i));
        }
        kind == u64::from(Record::PLACE)
    }
}

// 11: the first record that has not its kind, or, a component's, not its number.
pub(crate) fn check_kinds(bytes: SavedBytes<'_>) -> Result<(), Refusal>
    ensures { told_checked result ≡ check11 bytes.entry.0.now }
{
    let n = u32::from(bytes.component_count());
    match (0..n + 2).find(|i| !bytes.record(RecordNumber(*i)).has_kind(n, *i)) {
        Some(i) => Err(Refusal::SavedKind(RecordNumber(i))),
        None => Ok(()),
    }
}
