// The values of tag items as their fields: total, with 0 for what lies beyond the bytes lent.
#![tactic(auto)]

ghost use Rattle.std.specs.Prelude.{◌≡◌, ◌*◌, ◌≤◌, eqb, length};
ghost use Rattle.tags.specs.TagValues.{IsDeti, atstf_in, rfudf_in, timestamp_in, fic_place, ficl_in, rfud_place, rfu_in, rfa_in, length_for, entry_by, fields_by};

use frame::{Fields, Span, Stream, Timestamp};

// The first word of a management item's value m.
#[derive(Clone, Copy)]
pub struct Head {
    pub atstf: bool,
    pub ficf: bool,
    pub rfudf: bool,
    pub fct: u8,
    pub stat: u8,
    pub mid: u8,
    pub fp: u8,
}

pub fn deti(m: &[u8]) -> Head
    ensures { IsDeti m.now result }
{
    let w = octets::word(m, 0);
    Head {
        atstf: (w >> 31) % 2 == 1,
        ficf: (w >> 30) % 2 == 1,
        rfudf: (w >> 29) % 2 == 1,
        fct: ((w >> 16) % 256) as u8,
        stat: ((w >> 8) % 256) as u8,
        mid: ((w >> 6) % 4) as u8,
        fp: ((w >> 3) % 8) as u8,
    }
}

#[tactic(auto, using(crate::proofs::TagLaws::flags), unfolding(crate::specs::TagValues::timestamp_in, crate::specs::TagValues::tsta_in))]
fn timestamp(m: &[u8]) -> Timestamp
    ensures { result ≡ timestamp_in m.now }
{
    if deti(m).atstf {
        reading::timestamp((octets::eight(m, 6) % 0x1000000) as u32)
    } else {
        Timestamp::Absent
    }
}

// Where the FIC lies.
#[tactic(auto, using(crate::proofs::TagLaws::flags), unfolding(crate::specs::TagValues::fic_place))]
pub fn fic(m: &[u8]) -> Span
    ensures { (result.start ≡ fic_place m.now) × (result.len ≡ 4 * ficl_in m.now) }
{
    let deti = deti(m);
    Span {
        start: 6 + 8 * usize::from(deti.atstf),
        len: 4 * meaning::ficl(u8::from(deti.ficf), deti.mid),
    }
}

#[tactic(auto, using(crate::proofs::TagLaws::places), unfolding(crate::specs::TagValues::rfud_place))]
fn rfud_place(m: &[u8]) -> usize
    ensures { (result ≡ rfud_place m.now) × (result ≤ 142) }
{
    let fic = fic(m);
    fic.start + fic.len
}

#[tactic(auto, using(crate::proofs::TagLaws::flags), unfolding(crate::specs::TagValues::rfu_in))]
fn rfu(m: &[u8]) -> u16
    ensures { result ≡ rfu_in m.now }
{
    if deti(m).rfudf {
        octets::two(m, rfud_place(m)) as u16
    } else {
        0xFFFF
    }
}

#[tactic(auto, using(crate::proofs::TagLaws::flags), unfolding(crate::specs::TagValues::rfa_in))]
fn rfa(m: &[u8]) -> u8
    ensures { result ≡ rfa_in m.now }
{
    if deti(m).rfudf {
        octets::byte(m, rfud_place(m) + 2) as u8
    } else {
        0xFF
    }
}

// It has the length that its flags and MID call for.
#[tactic(auto, using(crate::proofs::TagLaws::flags), unfolding(crate::specs::TagValues::length_for))]
pub fn called(m: &[u8]) -> bool
    ensures { result ≡ eqb (length m.now) (length_for m.now) }
{
    m.len() == rfud_place(m) + 3 * usize::from(deti(m).rfudf)
}

// The fields of the frame, with its sync word, its streams' count and table.
#[tactic(auto, using(crate::proofs::TagLaws::flags), unfolding(crate::specs::TagValues::fields_by, crate::specs::TagValues::mnsc_in))]
pub fn fields(m: &[u8], fsync1: bool, count: usize, table: [Stream; 64]) -> Fields
    ensures { result ≡ fields_by m.now fsync1 count table }
{
    let deti = deti(m);
    Fields {
        level: meaning::level(deti.stat),
        fsync1,
        fct: deti.fct,
        ficf: deti.ficf,
        fp: deti.fp,
        mid: deti.mid,
        mnsc: octets::two(m, 4) as u16,
        rfu: rfu(m),
        rfa: rfa(m),
        timestamp: timestamp(m),
        count,
        table,
    }
}

// The entry of a stream item's value v, with its STL.
#[tactic(auto, unfolding(crate::specs::TagValues::entry_by))]
pub fn entry(v: &[u8], stl: u16) -> Stream
    ensures { result ≡ entry_by v.now stl }
{
    let address = octets::two(v, 0);
    Stream {
        scid: ((address >> 10) % 64) as u8,
        sad: (address % 1024) as u16,
        tpl: ((octets::byte(v, 2) >> 2) % 64) as u8,
        stl,
    }
}
