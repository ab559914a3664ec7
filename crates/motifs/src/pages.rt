// What the program prints, page after page. What is left to print is a state, and the next page is a function of it.
ghost use Rattle.std.specs.Prelude.{◌≡◌, ◌+◌, ◌^◌, ◌≤◌, ◌<◌, length};
ghost use Rattle.rules.specs.Lists.{if, put};
ghost use Rattle.rules.specs.Told.{told_answer, told_leg};
ghost use Rattle.motifs.specs.Left.{nothing, rows, told_left, told_rest, opening, rows_or_end};
ghost use Rattle.motifs.specs.Pages.{page_rows, is_ended_told, leg_page, leg_over, Goes, Printable, Next, Kept};

use rules::{Leg, Refusal, Search, Sequences, Stop};
use text::print::{LINE, print_end, print_page, print_refused};

// The most rows of a page, and the bytes of that many of the longest line.
const ROWS: usize = 256;

const BYTES: usize = LINE * ROWS;

// The most steps of a page's leg: few enough that rows show while a long search goes on.
const STEPS: u64 = 16384;

// How far the printing of a search has come: where the search goes on, and the steps and rows so far.
#[derive(Clone, Copy)]
pub struct Way {
    pub search: Search,
    pub steps: u64,
    pub rows: u64,
}

impl Way {
    // What is left after a leg: the end line where it ended the search, and else the rows from where it stopped.
    fn after(self, leg: Leg) -> Left
        requires { (self.steps + leg.steps < 2 ^ 64) × (self.rows + leg.rows < 2 ^ 64) }
        ensures { told_left result ≡ rows_or_end self (is_ended_told (told_answer leg.answer)) leg.steps leg.rows leg.search }
    {
        let steps = self.steps + leg.steps;
        let rows = self.rows + leg.rows as u64;
        if matches!(leg.answer, Ok(Stop::Ended)) {
            Left::End { steps, rows }
        } else {
            Left::Rows(Way {
                search: leg.search,
                steps,
                rows,
            })
        }
    }
}

// What is left to print: the line of a refusal; the rows of a search from here on, and its end line; or the end line alone, by its
// steps and rows.
#[derive(Clone, Copy)]
pub enum Left {
    Refusal(Refusal),
    Rows(Way),
    End { steps: u64, rows: u64 },
}

impl Left {
    // What is left at first: the refusal that an input came to, or all of the search that was begun.
    pub fn opening(begun: Result<Search, Refusal>) -> Left
        ensures { told_left result ≡ opening (told_answer begun) }
    {
        match begun {
            Err(why) => Left::Refusal(why),
            Ok(search) => Left::Rows(Way {
                search,
                steps: 0,
                rows: 0,
            }),
        }
    }
}

// A page: its length in bytes, and what is left after it. It is told by its length, and not as a part of the buffer, since what is left is
// handed back to the pages that have the buffer.
#[derive(Clone, Copy)]
pub struct Page {
    pub length: usize,
    pub left: Option<Left>,
}

impl Page {
    // What is still to be printed after a page: nothing more where the page was not written.
    pub fn if_written(self, wrote: bool) -> Option<Left>
        ensures { told_rest result ≡ if wrote (told_rest self.left) nothing }
    {
        if wrote { self.left } else { None }
    }
}

// A leg, and how many bytes its page has.
#[derive(Clone, Copy)]
struct PrintedLeg {
    leg: Leg,
    length: usize,
}

// The pages of a printout: the sequences, and the room for a page, as the tables of a leg's rows and as their text.
#[derive(Drop)]
pub struct Pages<'a> {
    set: Sequences<'a>,
    motifs: [u64; ROWS],
    supports: [u32; ROWS],
    weights: [u64; ROWS],
    pub out: [u8; BYTES],
}

impl<'a> Pages<'a> {
    // The pages over some sequences.
    pub fn new(set: &Sequences<'a>) -> Pages<'a>
        ensures { (result.set.letters.now ≡ set.now.letters.now) × (result.set.lengths.now ≡ set.now.lengths.now) }
    {
        Pages {
            set: *set,
            motifs: [0; ROWS],
            supports: [0; ROWS],
            weights: [0; ROWS],
            out: [0; BYTES],
        }
    }

    // Runs a leg of a search, and leaves its page, a line for each of its rows, at the front of `out`; what lies past it stays. A
    // refused leg has an empty page.
    fn leg(&mut self, search: Search, budget: u64) -> PrintedLeg
        ensures leg_value { told_leg result.leg ≡ (leg_over self.old search budget).told }
        ensures kept { Kept self.old self.new }
        ensures motifs_after { self.new.motifs ≡ (leg_over self.old search budget).motifs }
        ensures supports_after { self.new.supports ≡ (leg_over self.old search budget).supports }
        ensures weights_after { self.new.weights ≡ (leg_over self.old search budget).weights }
        ensures length_value { result.length ≡ length (leg_page self.old.set.letters.now self.old.set.lengths.now search budget page_rows) }
        ensures out_after { self.new.out ≡ put (leg_page self.old.set.letters.now self.old.set.lengths.now search budget page_rows) self.old.out }
        ensures length_in_bounds { result.length ≤ length self.new.out }
    {
        let leg = search::leg(
            &self.set,
            search,
            budget,
            &mut self.motifs,
            &mut self.supports,
            &mut self.weights,
        );
        let length = print_page(
            search.template,
            &self.motifs,
            &self.supports,
            &self.weights,
            leg.rows,
            &mut self.out,
        );
        PrintedLeg { leg, length }
    }

    // The next page of a search: the rows of one leg more.
    fn next_rows(&mut self, way: Way) -> Page
        requires { Goes self.old.set.letters.now self.old.set.lengths.now way }
        ensures kept { Kept self.old self.new }
        ensures next { Next self.old.set.letters.now self.old.set.lengths.now (rows way) self.old.out self.new.out result }
    {
        let PrintedLeg { leg, length } = self.leg(way.search, STEPS);
        let left = Some(way.after(leg));
        Page { length, left }
    }

    // THE NEXT PAGE of what is left, at the front of `out`, and what is left after it. Past the page `out` stays.
    pub fn next(&mut self, left: Left) -> Page
        requires { Printable self.old.set.letters.now self.old.set.lengths.now (told_left left) }
        ensures kept { Kept self.old self.new }
        ensures next { Next self.old.set.letters.now self.old.set.lengths.now (told_left left) self.old.out self.new.out result }
    {
        let length = match left {
            Left::Refusal(why) => print_refused(why.number(), why.place(), &mut self.out),
            Left::End { steps, rows } => print_end(steps, rows, &mut self.out),
            Left::Rows(way) => return self.next_rows(way),
        };
        Page { length, left: None }
    }
}
