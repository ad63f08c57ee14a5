// The words of a frame, each as its fields: total, with 0 for what lies beyond the bytes lent.
#![tactic(auto)]

ghost use Rattle.std.specs.Prelude.{◌≡◌};
ghost use Rattle.frame.specs.Frame.{stream_by, stream_of, IsSync, IsFc, IsEoh, IsEof, IsTist};

use frame::{Eof, Eoh, Fc, Stream, Sync, Tist};

pub fn sync(frame: &[u8]) -> Sync
    ensures { IsSync frame.now result }
{
    let w = octets::word(frame, 0);
    Sync {
        err: (w / 16777216 % 256) as u8,
        fsync: (w % 16777216) as u32,
    }
}

pub fn fc(frame: &[u8]) -> Fc
    ensures { IsFc frame.now result }
{
    let w = octets::word(frame, 4);
    Fc {
        fct: (w / 16777216 % 256) as u8,
        ficf: (w / 8388608 % 2) as u8,
        nst: (w / 65536 % 128) as u8,
        fp: (w / 8192 % 8) as u8,
        mid: (w / 2048 % 4) as u8,
        fl: (w % 2048) as u16,
    }
}

fn stream(w: usize) -> Stream
    ensures { result ≡ stream_by w }
{
    Stream {
        scid: (w / 67108864 % 64) as u8,
        sad: (w / 65536 % 1024) as u16,
        tpl: (w / 1024 % 64) as u8,
        stl: (w % 1024) as u16,
    }
}

// The entry of stream i, with no wrap at any i.
pub fn entry(frame: &[u8], i: usize) -> Stream
    ensures { result ≡ stream_of frame.now i }
{
    if i > frame.len() / 4 {
        return stream(0);
    }
    stream(octets::word(frame, 4 + (i + 1) * 4))
}

pub fn eoh(frame: &[u8]) -> Eoh
    ensures { IsEoh frame.now result }
{
    let fc = fc(frame);
    let w = octets::word(frame, 4 + (fc.nst as usize + 1) * 4);
    Eoh {
        mnsc: (w / 65536 % 65536) as u16,
        sum: (w % 65536) as u16,
    }
}

pub fn eof(frame: &[u8]) -> Eof
    ensures { IsEof frame.now result }
{
    let fc = fc(frame);
    let w = octets::word(frame, 4 + (fc.fl as usize + 1) * 4);
    Eof {
        sum: (w / 65536 % 65536) as u16,
        rfu: (w % 65536) as u16,
    }
}

pub fn tist(frame: &[u8]) -> Tist
    ensures { IsTist frame.now result }
{
    let fc = fc(frame);
    let w = octets::word(frame, 4 + (fc.fl as usize + 2) * 4);
    Tist {
        rfa: (w / 16777216 % 256) as u8,
        time: (w % 16777216) as u32,
    }
}
