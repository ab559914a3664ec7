// 21: the bytes that the papers do not name, which are 0, and the number of the kind of search.
ghost use Rattle.std.specs.Prelude.{◌≡◌, ◌+◌, ◌≤◌, leb};
ghost use Rattle.rules.specs.Limits.{profile_last, record_bytes};
ghost use Rattle.rules.specs.Refusals.{check21};
ghost use Rattle.rules.specs.Saved.{field, is_blank, is_allowance_blank, is_unnamed_blank};
ghost use Rattle.rules.specs.Told.{told_checked};

use crate::read::{SavedBytes, SavedRecord};
use rules::{Profile, RecordNumber, Refusal};

impl<'a> SavedRecord<'a> {
    // The n bytes from byte k on are 0.
    #[tactic(auto, using(crate::proofs::Fields::blank_is))]
    fn is_blank(self, k: usize, n: usize) -> bool
        requires { (k + n ≤ record_bytes) × (n ≤ 8) }
        ensures { result ≡ is_blank self.entry.0.now k n }
    {
        self.field(k, n) == 0
    }

    // Byte 12 of the size record is the number of a kind of search.
    fn has_profile(self) -> bool
        ensures { result ≡ leb (field self.entry.0.now 12 1) profile_last }
    {
        Profile::try_from(self.field(12, 1)).is_ok()
    }

    // Byte 3 of a component's record is 0 in a kind of search that has no allowances.
    fn is_allowance_blank(self, profile: Profile) -> bool
        ensures { result ≡ is_allowance_blank profile self.entry.0.now }
    {
        match profile {
            Profile::Exact => self.is_blank(3, 1),
            Profile::Mixed => true,
        }
    }

    // As record i of a save with n components, of this kind of search, it has 0 in the bytes that the papers do not name.
    #[tactic(auto, unfolding(rules::specs::Saved::is_unnamed_blank, rules::specs::Saved::is_size_blank, rules::specs::Saved::is_component_blank, rules::specs::Saved::is_place_blank))]
    fn is_unnamed_blank(self, profile: Profile, n: u32, i: u32) -> bool
        ensures { result ≡ is_unnamed_blank profile n i self.entry.0.now }
    {
        if i == 0 {
            return self.has_profile() & self.is_blank(13, 3);
        }
        if i <= n {
            return self.is_allowance_blank(profile) & self.is_blank(8, 8);
        }
        self.is_blank(2, 6)
    }
}

// 21: the first record with a byte that must be 0 and is not.
pub(crate) fn check_blanks(bytes: SavedBytes<'_>) -> Result<(), Refusal>
    ensures { told_checked result ≡ check21 bytes.entry.0.now }
{
    let profile = bytes.profile();
    let n = u32::from(bytes.component_count());
    match (0..n + 2).find(|i| !bytes
        .record(RecordNumber(*i))
        .is_unnamed_blank(profile, n, *i))
    {
        Some(i) => Err(Refusal::SavedBlank(RecordNumber(i))),
        None => Ok(()),
    }
}
