// Writing: the records of a search that passed its checks, one after the other.
ghost use Rattle.std.specs.Prelude.{◌≡◌, ◌+◌, ◌<◌};
ghost use Rattle.records.specs.ReadWrite.{write_rule};
ghost use Rattle.rules.specs.Limits.{record_extra};
ghost use Rattle.rules.specs.Saved.{record_at, bytes};
ghost use Rattle.rules.specs.Sound.{SoundTemplate};
ghost use Rattle.rules.specs.Told.{told_answer};

use rules::{Record, Refusal, Search};

// Record i of a search, from 0.
fn record_at(s: Search, i: usize) -> Record
    requires sound_template { SoundTemplate s.template }
    requires i_bound { i < s.template.count + record_extra }
    ensures { result.bytes ≡ record_at (bytes s) i }
{
    let t = s.template;
    if i == 0 {
        return Record::of_size(s);
    }
    if i <= t.count as usize {
        return Record::of_component(t.profile, i as u8, t.components()[i - 1]);
    }
    Record::of_place(s.place)
}

// The search is written to the front of the buffer, and the length of the save is answered; the rest of the buffer stays. A
// buffer that is too short is refused (17), with nothing written.
pub fn write_search(s: Search, out: &mut [u8]) -> Result<usize, Refusal>
    requires { SoundTemplate s.template }
    ensures result_value { told_answer result ≡ (write_rule s out.old).told }
    ensures out_after { out.new ≡ (write_rule s out.old).out }
{
    let n = usize::from(s.template.count) + usize::from(Record::EXTRA);
    let length = Record::BYTES * n;
    if out.len() < length {
        return Err(Refusal::Room);
    }
    // No `chunks_exact_mut`: of what it lent a proof knows the length alone, and not what was written.
    for i in 0..n {
        let start = Record::BYTES * i;
        out[start..start + Record::BYTES].copy_from_slice(&record_at(s, i).bytes);
    }
    Ok(length)
}
