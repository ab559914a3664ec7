// The records of a saved search, each made from what it holds.
ghost use Rattle.std.specs.Prelude.{◌≡◌, ◌≤◌};
ghost use Rattle.rules.specs.Limits.{template_components, template_length};
ghost use Rattle.rules.specs.Saved.{size_record, component_record, place_record};
ghost use Rattle.rules.specs.Template.{allowance_in};

use crate::{Component, Place, Profile, Record, Search};

impl Record {
    // A record's bytes; the kinds of record, which its first byte tells; the records besides the components'. The kinds are bytes of a
    // save, and no enum: a save is read by comparing each of its bytes with what it has to be.
    pub const BYTES: usize = 16;

    pub const SIZE: u8 = 1;

    pub const COMPONENT: u8 = 2;

    pub const PLACE: u8 = 3;

    pub const EXTRA: u8 = 2;

    // The size record.
    pub fn of_size(s: Search) -> Record
        requires { s.template.count ≤ template_components }
        ensures { result.bytes ≡ size_record s }
    {
        let t = s.template;
        let count = t.count as u8;
        let q = s.quorum.to_le_bytes();
        let n = s.set.sequences.to_le_bytes();
        let k = t.letters().to_le_bytes();
        let m = s.set.letters.to_le_bytes();
        let kind = u8::from(t.profile);
        let bytes = [
            Record::SIZE,
            count + Record::EXTRA,
            q[0],
            q[1],
            n[0],
            n[1],
            k[0],
            k[1],
            m[0],
            m[1],
            m[2],
            m[3],
            kind,
            0,
            0,
            0,
        ];
        Record { bytes }
    }

    // The record of component i.
    pub fn of_component(profile: Profile, i: u8, c: Component) -> Record
        requires { (c.length ≤ template_length) × (allowance_in profile c ≤ template_length) }
        ensures { result.bytes ≡ component_record profile i c }
    {
        let length = c.length as u8;
        let allowance = c.allowance_in(profile) as u8;
        let l = c.low.to_le_bytes();
        let u = c.high.to_le_bytes();
        let bytes = [
            Record::COMPONENT,
            i,
            length,
            allowance,
            l[0],
            l[1],
            u[0],
            u[1],
            0,
            0,
            0,
            0,
            0,
            0,
            0,
            0,
        ];
        Record { bytes }
    }

    // The place record.
    pub fn of_place(p: Place) -> Record
        ensures { result.bytes ≡ place_record p }
    {
        let m = p.number.to_le_bytes();
        let bytes = [
            Record::PLACE,
            p.letters,
            0,
            0,
            0,
            0,
            0,
            0,
            m[0],
            m[1],
            m[2],
            m[3],
            m[4],
            m[5],
            m[6],
            m[7],
        ];
        Record { bytes }
    }
}
