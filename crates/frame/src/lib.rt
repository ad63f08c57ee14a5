// What a frame holds, as values.
#![tactic(auto)]

ghost use Rattle.std.specs.Prelude.{◌≡◌};
ghost use Rattle.frame.specs.Answers.{time_by};

use refusals::Refusal;

// A stream's entry in the table (clause 5.4.1).
#[derive(Clone, Copy)]
pub struct Stream {
    pub scid: u8,
    pub sad: u16,
    pub tpl: u8,
    pub stl: u16,
}

// SYNC (clause 6.2.1), FC (clause 5.3), EOH (clause 5.5), EOF (clause 5.7) and TIST (clause 5.8): a word's fields.
#[derive(Clone, Copy)]
pub struct Sync {
    pub err: u8,
    pub fsync: u32,
}

// FICF is its bit here, as the word has it; a header and a field set say whether it is set.
#[derive(Clone, Copy)]
pub struct Fc {
    pub fct: u8,
    pub ficf: u8,
    pub nst: u8,
    pub fp: u8,
    pub mid: u8,
    pub fl: u16,
}

#[derive(Clone, Copy)]
pub struct Eoh {
    pub mnsc: u16,
    pub sum: u16,
}

#[derive(Clone, Copy)]
pub struct Eof {
    pub sum: u16,
    pub rfu: u16,
}

#[derive(Clone, Copy)]
pub struct Tist {
    pub rfa: u8,
    pub time: u32,
}

// The timestamp is of three sorts (annex C.2): none is given, a time in periods of 16.384 MHz, or a reserved number, kept as it is.
#[derive(Clone, Copy)]
pub enum Timestamp {
    Absent,
    Time(u32),
    Reserved(u32),
}

impl Timestamp {
    // The number that the frame carries: FFFFFF where no timestamp is given.
    pub fn number(self) -> u32
        ensures { result ≡ time_by self }
    {
        match self {
            Timestamp::Absent => 0xFFFFFF,
            Timestamp::Time(n) => n,
            Timestamp::Reserved(n) => n,
        }
    }
}

// The fields of an accepted frame. The sync word is FSYNC1 where fsync1 is set, else FSYNC0. The level is the one handed on;
// sent and worked are the main-stream sum as sent and as worked out.
#[derive(Clone, Copy)]
pub struct Header {
    pub level: u8,
    pub fsync1: bool,
    pub fct: u8,
    pub ficf: bool,
    pub nst: u8,
    pub fp: u8,
    pub mid: u8,
    pub fl: u16,
    pub mnsc: u16,
    pub rfu: u16,
    pub rfa: u8,
    pub timestamp: Timestamp,
    pub sent: u16,
    pub worked: u16,
}

// What reading answers: the header, or why the frame is refused; and the stream table beside it, zero on a refusal.
#[derive(Clone, Copy)]
pub struct Reading {
    pub answer: Result<Header, Refusal>,
    pub table: [Stream; 64],
}

// A part of a frame: its first byte's place, and its length.
#[derive(Clone, Copy)]
pub struct Span {
    pub start: usize,
    pub len: usize,
}

// The fields given to writing. Entries beyond the count have no effect. FL is worked out, and so are both sums.
// An array of 64 and a count, not a slice: the field set is handed about by value, and no heap holds a table.
#[derive(Clone, Copy)]
pub struct Fields {
    pub level: u8,
    pub fsync1: bool,
    pub fct: u8,
    pub ficf: bool,
    pub fp: u8,
    pub mid: u8,
    pub mnsc: u16,
    pub rfu: u16,
    pub rfa: u8,
    pub timestamp: Timestamp,
    pub count: usize,
    pub table: [Stream; 64],
}
