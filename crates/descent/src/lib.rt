// The descent of a recovery: from flags that say where a component can start with the rest after it, every occurrence in a
// sequence, as rows in a lent buffer. An inner crate: its functions require what the checks and the flags' maker show.
#![tactic(auto)]

ghost use Rattle.std.specs.Prelude.{true, ◌&&◌, [], ◌∷◌, ◌++◌, ◌≡◌, min, ◌+◌, ◌-◌, ◌*◌, ◌≤◌, ◌<◌, leb, ltb, length, take, drop, get_or};
ghost use Rattle.descent.specs.Buffer.{buffer, progress, InBuffer, emit};
ghost use Rattle.descent.specs.Paths.{flag, Unflagged, paths, next_apart, handed, listed_rows, WaysCounted};
ghost use Rattle.rules.specs.Limits.{sequence_set_letters, sequence_set_sequences, template_components};
ghost use Rattle.rules.specs.Lists.{run, keep};
ghost use Rattle.rules.specs.Sound.{SoundTemplate};
ghost use Rattle.rules.specs.Template.{components};

use rules::{Position, SequenceNumber, SequenceSet, Template};

// The most numbers of a row: the sequence's, and a start for each component.
const ROW: usize = Template::COMPONENTS as usize + 1;

// A flag for each component and each letter of the longest sequence.
pub const FLAGS: usize = Template::COMPONENTS as usize * SequenceSet::LETTERS;

// How far the rows have come: those still to pass over, those written, and the numbers written.
#[derive(Clone, Copy)]
pub struct Progress {
    pub skip: u64,
    pub rows: usize,
    pub at: usize,
}

// The lent buffer, and how far the rows have come in it.
#[derive(Drop)]
pub struct Page<'a> {
    pub progress: Progress,
    pub out: &'a mut [u32],
    ghost inside: { InBuffer progress (length out.now) },
}

impl<'a> Page<'a> {
    // The whole buffer, for the rows from number `first` on.
    pub fn new(first: u64, out: &'a mut [u32]) -> Page<'a>
        ensures same_buffer { result.out.ghost_name ≡ out.entry.ghost_name }
        ensures begins { buffer result.progress result.out.now ≡ buffer (progress first 0 0) out.old }
    {
        let progress = Progress {
            skip: first,
            rows: 0,
            at: 0,
        };
        Page { progress, out }
    }

    // A row more: it is passed over, written behind the last one, or left out for want of room.
    #[tactic(auto, using(crate::proofs::Buffer::emit_passed, crate::proofs::Buffer::emit_left))]
    fn emit(&mut self, row: &[u32])
        requires { 0 < length row.now }
        ensures same_buffer { self.new.out.ghost_name ≡ self.old.out.ghost_name }
        ensures written { buffer self.new.progress self.new.out.now ≡ emit (length row.now) row.now (buffer self.old.progress self.old.out.now) }
    {
        let at = self.progress.at;
        if 0 < self.progress.skip {
            self.progress.skip -= 1;
        } else if row.len() <= self.out.len() - at {
            let end = at + row.len();
            self.out[at..end].copy_from_slice(row);
            self.progress.rows += 1;
            self.progress.at = end;
        }
    }

    // Whether no row of `width` numbers can go out any more.
    fn is_full(&self, width: usize) -> bool
        ensures { result ≡ leb self.now.progress.skip 0 && ltb (length self.now.out.now - self.now.progress.at) width }
    {
        self.progress.skip == 0 && self.out.len() - self.progress.at < width
    }
}

// Positions from one up to another, which is not one of them.
#[derive(Clone, Copy)]
struct Span {
    from: Position,
    end: Position,
}

// A sequence of so many letters as its flags show it: for each component and position whether the component can start there with
// the rest after it, and for each position in how many ways the first can.
#[derive(Clone, Copy)]
pub struct Descent<'a> {
    pub template: Template,
    pub letters: usize,
    pub flags: &'a [bool; FLAGS],
    pub ways: &'a [u64; SequenceSet::LETTERS],
    ghost sound: { SoundTemplate template },
    ghost short: { letters ≤ sequence_set_letters },
    ghost counted: { WaysCounted letters flags.now (components template) ways.now },
}

impl Descent<'_> {
    // That a position is one of the sequence's is asked for here and in two functions more: a type that carries it would hold the number
    // of letters too, and each of the three would ask that it is this sequence's.

    // Whether a component can start at a position, with the rest after it.
    #[tactic(auto, using(crate::proofs::Paths::flag_in))]
    fn can_start(&self, component: usize, at: Position) -> bool
        requires { (component < template_components) × (1 ≤ at.0) × (at.0 ≤ self.now.letters) }
        ensures { result ≡ flag self.now.letters self.now.flags.now component at.0 }
    {
        self.flags[component * SequenceSet::LETTERS + (at.0 - 1)]
    }

    // The first position from `from` on at which an occurrence starts; one behind the sequence where there is none.
    fn seek(&self, from: Position) -> Position
        requires { 1 ≤ from.0 }
        ensures from_le_result { (from.0 ≤ result.0) × Unflagged self.now.letters self.now.flags.now 0 from.0 result.0 }
        ensures result_value { result.0 ≤ self.now.letters → flag self.now.letters self.now.flags.now 0 result.0 ≡ true }
    {
        let mut at = from.0;
        while at <= self.letters {
            if self.can_start(0, Position(at)) {
                return Position(at);
            }
            at += 1;
        }
        Position(at)
    }

    // At how many of some positions a component can start, with the rest after it.
    fn count_starts(&self, component: usize, starts: Span) -> u64
        requires { (component < template_components) × (1 ≤ starts.from.0) × (starts.end.0 ≤ self.now.letters + 1) }
        ensures { result ≡ length (keep (flag self.now.letters self.now.flags.now component) (run starts.from.0 (starts.end.0 - starts.from.0))) }
    {
        let mut count: u64 = 0;
        for at in starts.from.0..starts.end.0 {
            if self.can_start(component, Position(at)) {
                count += 1;
            }
        }
        count
    }

    // Where the component after one may start if that starts at a position.
    fn next_starts(&self, component: usize, at: Position) -> Span
        requires { (component + 1 < self.now.template.count) × (at.0 ≤ self.now.letters) }
        ensures from_value { result.from.0 ≡ at.0 + (next_apart self.now.template component).near }
        ensures end_value { result.end.0 ≡ min (self.now.letters + 1) (result.from.0 + (next_apart self.now.template component).count) }
    {
        let components = self.template.components();
        let apart = components[component + 1].after(components[component]);
        let from = at.0 + apart.near;
        let end = (from + apart.count).min(self.letters + 1);
        Span {
            from: Position(from),
            end: Position(end),
        }
    }

    // Hands out a row for each start of the last component that is one of some: the numbers before it stand in `row`. Where none of these
    // rows is asked for, they are passed over at once, as many as there are.
    fn list_last(&self, component: usize, starts: Span, row: [u32; ROW], page: &mut Page<'_>)
        requires { (component + 1 ≡ self.now.template.count) × (1 ≤ starts.from.0) × (starts.end.0 ≤ self.now.letters + 1) }
        ensures same_buffer { page.new.out.ghost_name ≡ page.old.out.ghost_name }
        ensures page_after { buffer page.new.progress page.new.out.now ≡ handed (drop component (components self.now.template)) self.now.letters self.now.flags.now row component starts.from.0 starts.end.0 (buffer page.old.progress page.old.out.now) }
    {
        if 0 < page.progress.skip {
            let under = self.count_starts(component, starts);
            if under <= page.progress.skip {
                page.progress.skip -= under;
                return;
            }
        }
        let last = component + 1;
        let width = last + 1;
        let mut longer = row;
        for at in starts.from.0..starts.end.0 {
            if !self.can_start(component, Position(at)) {
                continue;
            }
            longer[last] = at as u32;
            page.emit(&longer[..width]);
        }
    }

    // Hands out, one by one, the occurrences whose starts before `component` stand in `row` and whose start of it is one of some:
    // all later starts under it, component by component, before the next. Once the buffer is full no more are made.
    fn descend(&self, component: usize, starts: Span, row: [u32; ROW], page: &mut Page<'_>)
        requires { (component < self.now.template.count) × (1 ≤ starts.from.0) × (starts.end.0 ≤ self.now.letters + 1) }
        ensures same_buffer { page.new.out.ghost_name ≡ page.old.out.ghost_name }
        ensures page_after { buffer page.new.progress page.new.out.now ≡ handed (drop component (components self.now.template)) self.now.letters self.now.flags.now row component starts.from.0 starts.end.0 (buffer page.old.progress page.old.out.now) }
    {
        let count = self.template.count as usize;
        let next = component + 1;
        if next == count {
            self.list_last(component, starts, row, page);
            return;
        }
        let width = count + 1;
        let mut longer = row;
        for at in starts.from.0..starts.end.0 {
            if !self.can_start(component, Position(at)) {
                continue;
            }
            if page.is_full(width) {
                return;
            }
            longer[next] = at as u32;
            let later = self.next_starts(component, Position(at));
            self.descend(next, later, longer, page);
        }
    }

    // The same of all occurrences whose first start is `at`. Where no row of theirs is asked for, they are passed over at once, as
    // many as there are.
    #[tactic(auto, using(crate::proofs::Buffer::passed_over, crate::proofs::StartByStart::handed_one))]
    fn list_start(&self, at: Position, row: [u32; ROW], page: &mut Page<'_>)
        requires { (1 ≤ at.0) × (at.0 ≤ self.now.letters) }
        ensures same_buffer { page.new.out.ghost_name ≡ page.old.out.ghost_name }
        ensures page_after { buffer page.new.progress page.new.out.now ≡ handed (components self.now.template) self.now.letters self.now.flags.now row 0 at.0 (at.0 + 1) (buffer page.old.progress page.old.out.now) }
    {
        let under = self.ways[at.0 - 1];
        if under <= page.progress.skip {
            page.progress.skip -= under;
            return;
        }
        let starts = Span {
            from: at,
            end: Position(at.0 + 1),
        };
        self.descend(0, starts, row, page);
    }

    // Hands out all occurrences in the sequence, each with the sequence's number in front.
    pub fn list_starts(&self, number: SequenceNumber, page: &mut Page<'_>)
        requires { number.0 ≤ sequence_set_sequences }
        ensures same_buffer { page.new.out.ghost_name ≡ page.old.out.ghost_name }
        ensures page_after { buffer page.new.progress page.new.out.now ≡ listed_rows self.now.template self.now.letters self.now.flags.now number.0 (buffer page.old.progress page.old.out.now) }
    {
        let width = self.template.count as usize + 1;
        let mut row = [0u32; ROW];
        row[0] = number.0 as u32;
        let mut at = self.seek(Position(1)).0;
        while at <= self.letters {
            if page.is_full(width) {
                return;
            }
            self.list_start(Position(at), row, page);
            at = self.seek(Position(at + 1)).0;
        }
    }
}
