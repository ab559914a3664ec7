// Reading: the search that bytes hold, whatever they are. Past its end, a list of bytes reads as 0.
ghost use Rattle.std.specs.Prelude.{◌≡◌, ◌+◌, ◌^◌, ◌≤◌, ◌<◌};
ghost use Rattle.rules.specs.Limits.{record_bytes};
ghost use Rattle.rules.specs.Saved.{field, record_at, record_count, component_count, read_profile, read_component, read_place, read_template, read_search};

use rules::{Component, Place, Profile, Record, RecordNumber, Search, SequenceSet, Template};

// The bytes of one record, as many of them as there are.
#[derive(Clone, Copy)]
pub(crate) struct SavedRecord<'a>(pub(crate) &'a [u8]);

impl<'a> SavedRecord<'a> {
    // The number in n bytes from byte k on, the low byte first.
    #[tactic(auto, using(crate::proofs::Fields::read_none, crate::proofs::Fields::read_room))]
    pub(crate) fn field(self, k: usize, n: usize) -> u64
        requires { (k + n ≤ record_bytes) × (n ≤ 8) }
        ensures value { result ≡ field self.entry.0.now k n }
        ensures upper_bound { result < 256 ^ n }
    {
        let mut x = 0;
        // No `fold`: its closure would have to promise for each number so far that 256 times it fits.
        for j in (0..n).rev() {
            let byte = self.0.get(k + j).copied().unwrap_or(0);
            x = 256 * x + u64::from(byte);
        }
        x
    }

    // The component that it holds.
    #[tactic(auto, unfolding(rules::specs::Saved::read_component))]
    fn component(self) -> Component
        ensures { result ≡ read_component self.entry.0.now }
    {
        let length = self.field(2, 1) as u16;
        let allowance = self.field(3, 1) as u16;
        let low = self.field(4, 2) as u16;
        let high = self.field(6, 2) as u16;
        Component::new(length, low, high).allowing(allowance)
    }

    // The place that it holds.
    #[tactic(auto, unfolding(rules::specs::Saved::read_place))]
    fn place(self) -> Place
        ensures { result ≡ read_place self.entry.0.now }
    {
        let letters = self.field(1, 1) as u8;
        let number = self.field(8, 8);
        Place::new(letters, number)
    }
}

// The bytes of a save.
#[derive(Clone, Copy)]
pub(crate) struct SavedBytes<'a>(pub(crate) &'a [u8]);

impl<'a> SavedBytes<'a> {
    // Record i.
    #[tactic(auto, using(crate::proofs::Fields::record_cut))]
    pub(crate) fn record(self, i: RecordNumber) -> SavedRecord<'a>
        ensures { result.0.now ≡ record_at self.entry.0.now i.0 }
    {
        let start = Record::BYTES * i.0 as usize;
        let rest = &self.0[start.min(self.0.len())..];
        SavedRecord(&rest[..rest.len().min(Record::BYTES)])
    }

    // How many records the bytes say there are.
    #[tactic(auto, unfolding(rules::specs::Saved::record_count))]
    pub(crate) fn record_count(self) -> u8
        ensures { result ≡ record_count self.entry.0.now }
    {
        self.0.get(1).copied().unwrap_or(0)
    }

    // And so how many components.
    #[tactic(auto, unfolding(rules::specs::Saved::component_count))]
    pub(crate) fn component_count(self) -> u8
        ensures { result ≡ component_count self.entry.0.now }
    {
        self.record_count().saturating_sub(Record::EXTRA)
    }

    // The kind of search that the size record tells.
    #[tactic(auto, unfolding(rules::specs::Saved::read_profile))]
    pub(crate) fn profile(self) -> Profile
        ensures { result ≡ read_profile self.entry.0.now }
    {
        let number = self.record(RecordNumber(0)).field(12, 1);
        Profile::of(number)
    }

    // The template, with nothing in what it does not use.
    #[tactic(auto, unfolding(rules::specs::Saved::read_template, rules::specs::Template::trimmed))]
    fn template(self) -> Template
        ensures { result ≡ read_template self.entry.0.now }
    {
        let profile = self.profile();
        let count = self.component_count();
        let [c1, c2, c3, c4, c5, c6] = [1, 2, 3, 4, 5, 6].map(|i| self
            .record(RecordNumber(i))
            .component());
        Template::new(profile, u16::from(count), c1, c2, c3, c4, c5, c6).trim()
    }

    // The search.
    #[tactic(auto, unfolding(rules::specs::Saved::read_search))]
    pub(crate) fn search(self) -> Search
        ensures { result ≡ read_search self.entry.0.now }
    {
        let template = self.template();
        let size = self.record(RecordNumber(0));
        let quorum = size.field(2, 2);
        let sequences = size.field(4, 2) as u32;
        let letters = size.field(8, 4) as u32;
        let set = SequenceSet::new(sequences, letters);
        let last = u32::from(self.component_count()) + 1;
        let place = self.record(RecordNumber(last)).place();
        Search::new(template, quorum, set, place)
    }
}
