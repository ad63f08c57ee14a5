// Frames, right and wrong.
ghost use Rattle.std.specs.Prelude.{◌≤◌};

use frame::{Header, Timestamp};

// What a frame is built from; the FL is the formula's plus `longer`, the sums are the right ones plus what is said.
#[derive(Clone, Copy)]
pub struct Given {
    pub sync: u32,
    pub fct: u8,
    pub ficf: u8,
    pub nst: u8,
    pub mid: u8,
    // each stream's STL but the last's, and the last's
    pub stl: u16,
    pub last: u16,
    pub longer: u8,
    pub header_off: u8,
    pub main_off: u8,
    pub time: u32,
}

// Level 0, FSYNC0, FCT 17, the FIC of mode I, one stream of STL 24, no timestamp.
pub const PLAIN: Given = Given {
    sync: 0xff073ab6,
    fct: 17,
    ficf: 1,
    nst: 1,
    mid: 1,
    stl: 24,
    last: 24,
    longer: 0,
    header_off: 0,
    main_off: 0,
    time: 0xffffff,
};

// What `header` gives of a frame that is refused: no field is what a row expects.
const NO_HEADER: Header = Header {
    level: 255,
    fsync1: false,
    fct: 255,
    ficf: false,
    nst: 255,
    fp: 255,
    mid: 255,
    fl: 65535,
    mnsc: 0,
    rfu: 0,
    rfa: 0,
    timestamp: Timestamp::Time(0),
    sent: 0,
    worked: 0,
};

// The bytes from start up to end, with no order in their bits.
pub fn put_main(frame: &mut [u8], start: usize, end: usize) {
    for i in start..end.min(frame.len()) {
        frame[i] = (i % 251) as u8;
    }
}

impl Given {
    // The STL of stream i.
    fn stl(self, i: u8) -> u16 {
        if self.nst.checked_sub(1) == Some(i) {
            self.last
        } else {
            self.stl
        }
    }

    // SCID 1 and up, SAD 54, TPL 34.
    fn put_table(self, frame: &mut [u8]) {
        for i in 0..self.nst {
            let word = usize::from(i % 63 + 1) * 67108864
                + 54 * 65536
                + 34 * 1024
                + usize::from(self.stl(i) % 1024);
            putting::put4(frame, 8 + usize::from(i) * 4, word);
        }
    }

    // The main stream's length in words of four bytes.
    fn words(self) -> usize
        ensures { result ≤ 33423402 }
    {
        let mut words = meaning::ficl(self.ficf, self.mid);
        for i in 0..self.nst {
            words += 2 * usize::from(self.stl(i));
        }
        words
    }

    fn fc(self, fl: usize) -> usize {
        let fct = usize::from(self.fct);
        let ficf = usize::from(self.ficf % 2);
        let nst = usize::from(self.nst % 128);
        let mid = usize::from(self.mid % 4);
        fct * 16777216 + ficf * 8388608 + nst * 65536 + 5 * 8192 + mid * 2048 + fl % 2048
    }

    // The header, with MNSC 1234.
    fn put_header(self, frame: &mut [u8], fl: usize) {
        let end = 8 + usize::from(self.nst) * 4;
        putting::put4(frame, 0, self.sync as usize);
        putting::put4(frame, 4, self.fc(fl));
        self.put_table(frame);
        putting::put2(frame, end, 0x1234);
        let sum = ring::sum_between(frame, 4, end + 2);
        putting::put2(frame, end + 2, sum ^ u16::from(self.header_off));
    }

    // What follows the main stream: its sum, Rfu FFFF, Rfa FF, the timestamp.
    fn put_end(self, frame: &mut [u8], start: usize, end: usize) {
        if end < 65536 {
            let sum = ring::sum_between(frame, start, end);
            putting::put2(frame, end, sum ^ u16::from(self.main_off));
            putting::put2(frame, end + 2, 0xffff);
            putting::put4(frame, end + 4, 0xff000000 + (self.time % 16777216) as usize);
        }
    }

    pub fn build(self) -> [u8; 6144] {
        let mut frame = [0x55; 6144];
        let n = usize::from(self.nst);
        let fl = n + 1 + self.words() + usize::from(self.longer);
        let start = 12 + n * 4;
        let end = 8 + fl * 4;
        self.put_header(&mut frame, fl);
        put_main(&mut frame, start, end);
        self.put_end(&mut frame, start, end);
        frame
    }

    // The header that reading hands out of the frame built.
    pub fn header(self) -> Header {
        reading::read(&self.build()).answer.unwrap_or(NO_HEADER)
    }
}
