// Where a stream's sub-channel lies among the capacity units, and what is judged of it.
#![tactic(auto)]

ghost use Rattle.std.specs.Prelude.{◌≡◌};
ghost use Rattle.frame.specs.Frame.{stream_of};
ghost use Rattle.places.specs.Places.{place_of, same_scid, unsized, beyond, meets};

// What is judged of a stream: its SCID, its capacity units, from SAD up to end, its STL.
#[derive(Clone, Copy)]
pub struct Place {
    pub scid: u32,
    pub sad: u32,
    pub end: u32,
    pub stl: u32,
}

pub fn placed(frame: &[u8], i: usize) -> Place
    ensures { result ≡ place_of (stream_of frame.now i) }
{
    let s = fields::entry(frame, i);
    let sad = s.sad as u32;
    Place {
        scid: s.scid as u32,
        sad,
        end: sad + capacity::units(s.tpl, s.stl),
        stl: s.stl as u32,
    }
}

pub fn same(a: Place, b: Place) -> bool
    ensures { result ≡ same_scid a b }
{
    a.scid == b.scid
}

pub fn is_unsized(p: Place) -> bool
    ensures { result ≡ unsized p }
{
    (0 < p.stl) & (p.end <= p.sad)
}

pub fn is_beyond(p: Place) -> bool
    ensures { result ≡ beyond p }
{
    (p.sad < p.end) & (864 < p.end)
}

pub fn meet(a: Place, b: Place) -> bool
    ensures { result ≡ meets a b }
{
    ((a.sad < a.end) & (b.sad < b.end)) & ((a.sad < b.end) & (b.sad < a.end))
}
