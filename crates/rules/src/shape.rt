// What a search is over and where it stands: the limits, the constructors, and a template's components and letters.
ghost use Rattle.std.specs.Prelude.{◌≡◌, min, ◌-◌, ◌≤◌, length, take, drop};
ghost use Rattle.rules.specs.Limits.{template_components};
ghost use Rattle.rules.specs.Sequences.{set_of};
ghost use Rattle.rules.specs.Template.{slots, component, allowing, allowance_in, none, kept, trimmed, size, with_slots, distances, after};
ghost use Rattle.rules.specs.Walk.{place, first_place, ended_place};

use crate::{
    Component, Distances, Leg, Offset, Place, Profile, Refusal, Search, SequenceSet, Template,
};

impl Component {
    pub fn new(length: u16, low: u16, high: u16) -> Component
        ensures { result ≡ component length low high }
    {
        Component {
            length,
            low,
            high,
            allowance: 0,
        }
    }

    // The same, with so many letters that may stand for several bases.
    pub fn allowing(self, allowance: u16) -> Component
        ensures { result ≡ allowing allowance self }
    {
        Component { allowance, ..self }
    }

    // What stands in a slot past the last component.
    pub fn none() -> Component
        ensures { result ≡ none }
    {
        Component::new(0, 0, 0)
    }

    // How far its start may lie from that of the component before it.
    pub fn after(self, before: Component) -> Distances
        ensures { result ≡ after self before }
    {
        Distances::over(before.length, self.low, self.high)
    }

    // Its allowance, by the kind of search: an exact one has none, whatever stands there.
    pub fn allowance_in(self, profile: Profile) -> u16
        ensures { result ≡ allowance_in profile self }
    {
        match profile {
            Profile::Exact => 0,
            Profile::Mixed => self.allowance,
        }
    }

    // Component i of a template that counts n, with what its kind of search uses of it; nothing past the last.
    pub fn keep(self, profile: Profile, n: u16, i: u16) -> Component
        ensures { result ≡ kept profile n i self }
    {
        let used = self.allowing(self.allowance_in(profile));
        if i <= n { used } else { Component::none() }
    }
}

impl Distances {
    // After a component of so many letters and a gap of `low` to `high`. Nothing else computes a distance from a gap.
    pub fn over(letters: u16, low: u16, high: u16) -> Distances
        ensures { result ≡ distances letters low high }
    {
        let behind = letters as usize;
        let least = behind + low as usize;
        let most = behind + high as usize;
        Distances {
            near: least,
            count: (most + 1).saturating_sub(least),
        }
    }
}

impl Template {
    // The most components, letters of one, letters in all, those of a mixed motif, and letters of a gap.
    pub const COMPONENTS: u16 = 6;

    pub const LENGTH: u16 = 12;

    pub const LETTERS: u32 = 32;

    pub const MIXED: u32 = 16;

    pub const GAP: u16 = 255;

    // A template of a kind of search and so many components, from its six slots.
    pub fn new(
        profile: Profile,
        count: u16,
        c1: Component,
        c2: Component,
        c3: Component,
        c4: Component,
        c5: Component,
        c6: Component,
    ) -> Template
        ensures { result ≡ with_slots profile count c1 c2 c3 c4 c5 c6 }
    {
        Template {
            profile,
            count,
            c1,
            c2,
            c3,
            c4,
            c5,
            c6,
        }
    }

    // The slots in order, for loops.
    pub fn components(self) -> [Component; Template::COMPONENTS as usize]
        ensures { result ≡ slots self }
    {
        [self.c1, self.c2, self.c3, self.c4, self.c5, self.c6]
    }

    // How many slots hold a component: the count, and no more than there are slots.
    pub fn held(self) -> u16
        ensures { result ≡ min self.count template_components }
    {
        self.count.min(Template::COMPONENTS)
    }

    // The same template, with nothing in what it does not use: the slots that it does not count, and in an exact search the allowances.
    pub fn trim(self) -> Template
        ensures { result ≡ trimmed self }
    {
        let p = self.profile;
        let n = self.count;
        Template::new(
            p,
            n,
            self.c1.keep(p, n, 1),
            self.c2.keep(p, n, 2),
            self.c3.keep(p, n, 3),
            self.c4.keep(p, n, 4),
            self.c5.keep(p, n, 5),
            self.c6.keep(p, n, 6),
        )
    }

    // K, the letters in all.
    pub fn letters(self) -> u32
        ensures { result ≡ size self }
    {
        let slots = self.components();
        let mut k = 0;
        for c in &slots[..self.held() as usize] {
            k += c.length as u32;
        }
        k
    }
}

impl SequenceSet {
    // The most sequences, and the most letters of them all.
    pub const SEQUENCES: usize = 1024;

    pub const LETTERS: usize = 65536;

    pub fn new(sequences: u32, letters: u32) -> SequenceSet
        ensures { result ≡ set_of sequences letters }
    {
        SequenceSet { sequences, letters }
    }

    // The letters of the buffer from one offset up to another. Nothing else cuts lent letters to read them, so that neither a position
    // nor a sequence's number can be taken for an offset in the buffer.
    pub fn part(letters: &[u8], from: Offset, to: Offset) -> &[u8]
        requires { (from.0 ≤ to.0) × (to.0 ≤ length letters.now) }
        ensures { result.now ≡ take (to.0 - from.0) (drop from.0 letters.now) }
    {
        &letters[from.0..to.0]
    }
}

impl Place {
    pub fn new(letters: u8, number: u64) -> Place
        ensures { result ≡ place letters number }
    {
        Place { letters, number }
    }

    // The first candidate, A.
    pub fn first() -> Place
        ensures { result ≡ first_place }
    {
        Place::new(1, 0)
    }

    pub fn ended() -> Place
        ensures { result ≡ ended_place }
    {
        Place::new(0, 0)
    }
}

impl Search {
    pub fn new(template: Template, quorum: u64, set: SequenceSet, place: Place) -> Search
        ensures { result ≡ record { template = template; quorum = quorum; set = set; place = place } }
    {
        Search {
            template,
            quorum,
            set,
            place,
        }
    }
}

impl Leg {
    // What a leg answers that is refused: no step, no row, and the search as it was given.
    pub fn refused(search: Search, why: Refusal) -> Leg
        ensures { result ≡ record { answer = Err why; steps = 0; rows = 0; search = search } }
    {
        Leg {
            answer: Err(why),
            steps: 0,
            rows: 0,
            search,
        }
    }
}
