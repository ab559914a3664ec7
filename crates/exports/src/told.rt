// Answers as numbers, since C reads them: flags and reasons too. In each, `number` is 0 or the refusal's number, `place` is the refusal's
// place, and what an answer does not have is 0. The two are fields of each, and no struct of their own: the theorems on the exported
// calls (`ExportedLegs`) read them there.
ghost use Rattle.std.specs.Prelude.{◌≡◌};
ghost use Rattle.exports.specs.Numbers.{count_told, page_told, stopped_answer, leg_told, restored_told, found_told};
ghost use Rattle.rules.specs.Told.{refusal_number, refusal_place, told_answer, told_leg, told_handed};

use rules::{FastaRecord, FileRefusal, Leg, Recovered, Refusal, Search, Stop};

// A save's bytes, or a join's positions.
#[derive(Clone, Copy, Default)]
pub struct Count {
    pub number: u64,
    pub place: u64,
    pub count: u64,
}

// What a save or a join answered.
impl From<Result<usize, Refusal>> for Count {
    ghost from_gives = { λ answer count. count ≡ count_told (told_answer answer) };

    #[tactic(auto, unfolding(crate::specs::Numbers::count_told))]
    fn from(answer: Result<usize, Refusal>) -> Count {
        match answer {
            Ok(count) => Count {
                count: count as u64,
                ..Count::default()
            },
            Err(why) => Count {
                number: why.number(),
                place: why.place(),
                ..Count::default()
            },
        }
    }
}

// A recovery's rows and the length of its whole list.
#[derive(Clone, Copy, Default)]
pub struct Page {
    pub number: u64,
    pub place: u64,
    pub rows: u64,
    pub length: u64,
}

// What a recovery answered.
impl From<Result<Recovered, Refusal>> for Page {
    ghost from_gives = { λ answer page. page ≡ page_told (told_answer answer) };

    #[tactic(auto, unfolding(crate::specs::Numbers::page_told))]
    fn from(answer: Result<Recovered, Refusal>) -> Page {
        match answer {
            Ok(recovered) => Page {
                rows: recovered.rows as u64,
                length: recovered.length,
                ..Page::default()
            },
            Err(why) => Page {
                number: why.number(),
                place: why.place(),
                ..Page::default()
            },
        }
    }
}

// Why a leg stopped (ended 1, spent 2, full 3), its steps and its rows.
#[derive(Clone, Copy, Default)]
pub struct Stopped {
    pub number: u64,
    pub place: u64,
    pub stop: u64,
    pub steps: u64,
    pub rows: u64,
}

// A leg that was refused before it was run.
impl From<Refusal> for Stopped {
    ghost from_gives = { λ why stopped. stopped ≡ stopped_answer (refusal_number why) (refusal_place why) 0 0 0 };

    fn from(why: Refusal) -> Stopped {
        Stopped {
            number: why.number(),
            place: why.place(),
            ..Stopped::default()
        }
    }
}

// What a leg answered.
impl From<Leg> for Stopped {
    ghost from_gives = { λ leg stopped. stopped ≡ leg_told (told_leg leg) };

    #[tactic(auto, unfolding(crate::specs::Numbers::leg_told))]
    fn from(leg: Leg) -> Stopped {
        let stopped = Stopped {
            steps: leg.steps,
            rows: leg.rows as u64,
            ..Stopped::default()
        };
        match leg.answer {
            Ok(Stop::Ended) => Stopped { stop: 1, ..stopped },
            Ok(Stop::Spent) => Stopped { stop: 2, ..stopped },
            Ok(Stop::Full) => Stopped { stop: 3, ..stopped },
            Err(why) => Stopped {
                number: why.number(),
                place: why.place(),
                ..stopped
            },
        }
    }
}

// A search, but for the shape of its template and the allowances.
#[derive(Clone, Copy, Default)]
pub struct Restored {
    pub number: u64,
    pub place: u64,
    pub profile: u16,
    pub components: u16,
    pub quorum: u64,
    pub sequences: u32,
    pub total: u32,
    pub letters: u8,
    pub candidate: u64,
}

// What a restore answered.
impl From<Result<Search, Refusal>> for Restored {
    ghost from_gives = { λ answer restored. restored ≡ restored_told (told_answer answer) };

    #[tactic(auto, unfolding(crate::specs::Numbers::restored_told))]
    fn from(answer: Result<Search, Refusal>) -> Restored {
        match answer {
            Ok(s) => Restored {
                profile: u16::from(u8::from(s.template.profile)),
                components: s.template.count,
                quorum: s.quorum,
                sequences: s.set.sequences,
                total: s.set.letters,
                letters: s.place.letters,
                candidate: s.place.number,
                ..Restored::default()
            },
            Err(why) => Restored {
                number: why.number(),
                place: why.place(),
                ..Restored::default()
            },
        }
    }
}

// A record of a FASTA file: 1 where one was found, where its name starts and ends in the file, and how many letters it has.
#[derive(Clone, Copy, Default)]
pub struct Found {
    pub number: u64,
    pub place: u64,
    pub found: u64,
    pub name_start: u64,
    pub name_end: u64,
    pub letters: u64,
}

// What the FASTA reader answered.
impl From<Result<Option<FastaRecord>, FileRefusal>> for Found {
    ghost from_gives = { λ answer found. found ≡ found_told (told_handed answer) };

    #[tactic(auto, unfolding(crate::specs::Numbers::found_told))]
    fn from(answer: Result<Option<FastaRecord>, FileRefusal>) -> Found {
        match answer {
            Ok(Some(record)) => Found {
                found: 1,
                name_start: record.name.start.0 as u64,
                name_end: record.name.end.0 as u64,
                letters: record.letters as u64,
                ..Found::default()
            },
            Ok(None) => Found::default(),
            Err(why) => Found {
                number: why.number(),
                place: why.place(),
                ..Found::default()
            },
        }
    }
}
