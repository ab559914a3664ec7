// What the candidates of a search are examined with, made once.
ghost use Rattle.std.specs.Prelude.{true, ◌≡◌};
ghost use Rattle.matching.specs.Path.{Inside, Letters};
ghost use Rattle.rows.specs.Set.{Offsets};
ghost use Rattle.rules.specs.Sound.{SoundSet, SoundTemplate};
ghost use Rattle.rules.specs.Template as templates;

use super::WORDS;
use rows::layout::Layout;
use rules::{Search, Sequences};

// Where a letter of a motif stands: its component, and its place there.
#[derive(Clone, Copy)]
pub struct Spot {
    pub component: u8,
    pub letter: u8,
}

impl Spot {
    // That of the first letter.
    pub const FIRST: Spot = Spot {
        component: 0,
        letter: 0,
    };
}

// A search, and the set of sequences that it goes over.
#[derive(Clone, Copy)]
pub struct Task<'a> {
    pub search: Search,
    pub set: Sequences<'a>,
    pub ghost sound_template: { SoundTemplate search.template },
    pub ghost sound_set: { SoundSet set.letters.now set.lengths.now },
}

// A search whose motifs have `depth` letters, and its set of sequences; where each letter of a motif stands, and where the words of each
// sequence begin. What a task holds is spread out here: nearly every clause below speaks of it, and would be longer by a name.
#[derive(Clone, Copy)]
pub struct Plan<'a> {
    pub search: Search,
    pub depth: u8,
    pub letters: &'a [u8],
    pub layout: Layout<'a>,
    pub inside: &'a [Spot],
    pub ghost sound_template: { SoundTemplate search.template },
    pub ghost depth_value: { depth ≡ templates.size search.template },
    pub ghost sound_set: { SoundSet letters.now layout.lengths.now },
    pub ghost placed: { Inside search.template inside.now },
}

// A plan, and the rows of the letters that a motif may have.
#[derive(Clone, Copy)]
pub struct Made<'a> {
    pub plan: Plan<'a>,
    pub standing: &'a [[u64; WORDS]],
    pub ghost rows: { Letters plan.search.template plan.layout.lengths.now plan.letters.now standing.now },
}

// What listed motifs are weighed with: what candidates are examined with, and where the letters of each sequence begin.
#[derive(Clone, Copy)]
pub struct Weighing<'a> {
    pub made: Made<'a>,
    pub offsets: &'a [u32],
    pub ghost offsets_laid: { Offsets made.plan.layout.lengths.now offsets.now },
}
