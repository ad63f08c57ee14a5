// Why something is refused, each reason with the number that stands for it wherever numbers are told: at the C boundary and in a log.
#![tactic(auto)]

ghost use Rattle.std.specs.Prelude.{◌≡◌, ◌<◌};
ghost use Rattle.refusals.specs.Refusals.{refusal_number, outcome_number};

#[derive(Clone, Copy, Debug, PartialEq, Eq)]
pub enum Refusal {
    // the bytes lent have another length
    Length = 1,
    // the sync word is neither of the two
    Sync = 2,
    // the status byte is none of the four
    Status = 3,
    // a null transmission
    Null = 4,
    // NST above 64
    NstAbove = 5,
    // header sum wrong
    HeaderSum = 6,
    // FCT above 249
    FctAbove = 7,
    // some STL above 684
    StlAbove = 8,
    // FL differs from the formula
    FlDiffers = 9,
    // FL above 1,532
    FlAbove = 10,
    // the main stream lent has another length than the fields call for
    MainLength = 11,
    // a value wider than its field; a sheet that cannot go on
    TooWide = 12,
    // stream index not below NST
    NoSuchStream = 13,
    // a tag item runs past the packet, is no whole number of bytes, or is a stream of no whole number of words
    BadItem = 20,
    // management item missing, repeated, or of another length than it calls for
    ManagementItem = 21,
    // stream numbers not 1 to NST, each once
    StreamNumbers = 22,
    // the logical frame has more bytes than the variant carries
    TooLong = 23,
    // a frame out of phase
    OutOfPhase = 24,
    // a group out of turn
    OutOfTurn = 25,
    // closing sum wrong
    ClosingSum = 26,
    // limit outside 1 to 8
    LimitOutside = 27,
    // log not a multiple of sixteen bytes
    LogLength = 28,
    // a kind, code or level that no record has, or a nonzero tail
    NotAllowed = 29,
    // two streams have one SCID
    EqualScids = 30,
    // protection with no size
    NoSize = 31,
    // capacity units beyond 863
    Beyond = 32,
    // two sub-channels share a capacity unit
    Overlap = 33,
    // place outside 0 to the record's length less 6,144; of a log, no such record
    PlaceOutside = 34,
    // the management item's status byte is none of the four
    ItemStatus = 35,
    // a message whose length groups cannot carry exactly
    MessageLength = 36,
    // not exactly sixteen bytes lent
    NotSixteen = 37,
}

impl Refusal {
    pub fn number(self) -> u8
        ensures { (result ≡ refusal_number self) × (0 < result) }
    {
        self as u8
    }
}

// What C is told of an outcome: 0 where nothing is refused.
pub fn outcome(of: Result<(), Refusal>) -> u8
    ensures { result ≡ outcome_number of }
{
    match of {
        Ok(()) => 0,
        Err(refusal) => refusal.number(),
    }
}
