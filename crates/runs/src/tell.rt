// What is printed of an answer: a refusal's number and place, or the counts and the rows. What a failed write leaves out is missing in the
// output, which is compared; what comes after it is still written.
use rules::{Recovered, Refusal, Search, Sequences, Stop};
use std::fmt::Display;

// The steps that a leg may take here, so that no run is long.
const BUDGET: u64 = 1000;

// A refusal: its number and its place.
fn refused(rt: &impl Print, why: Refusal) {
    let _ = println!(rt; ": refused {} {}", why.number(), why.place());
}

// Why a leg stopped, where it did not refuse.
fn word(stop: Stop) -> &'static str {
    match stop {
        Stop::Ended => "ended",
        Stop::Spent => "spent",
        Stop::Full => "full",
    }
}

// All of a table, on one line.
fn table<T: Display>(rt: &impl Print, table: &[T]) {
    for n in table {
        let _ = print!(rt; " {n}");
    }
    let _ = println!(rt);
}

// The first leg of a search: why it stopped, its steps and its rows, and its three tables.
fn leg(rt: &impl Print, set: &Sequences, search: Search) {
    let mut motifs = [0u64; 8];
    let mut supports = [0u32; 8];
    let mut weights = [0u64; 8];
    let leg = search::leg(
        set,
        search,
        BUDGET,
        &mut motifs,
        &mut supports,
        &mut weights,
    );
    match leg.answer {
        Ok(stop) => {
            let _ = println!(rt; ": {} {} {}", word(stop), leg.steps, leg.rows);
        }
        Err(why) => refused(rt, why),
    }
    table(rt, &motifs);
    table(rt, &supports);
    table(rt, &weights);
}

// A new search: refused, or its first leg.
pub fn begun(rt: &impl Print, set: &Sequences, answer: Result<Search, Refusal>) {
    match answer {
        Ok(search) => leg(rt, set, search),
        Err(why) => refused(rt, why),
    }
}

// A recovery: refused, or the rows written and the length of the list, and then all of the table.
pub fn recovered(rt: &impl Print, answer: Result<Recovered, Refusal>, out: &[u32]) {
    match answer {
        Ok(Recovered { rows, length }) => {
            let _ = println!(rt; ": rows {rows} {length}");
            table(rt, out);
        }
        Err(why) => refused(rt, why),
    }
}
