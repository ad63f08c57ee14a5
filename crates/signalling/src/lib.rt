// Signalling groups (clause 5.5.1) and the messages strung of them (annex A.3), frame by frame.
#![tactic(auto)]

ghost use Rattle.std.specs.Prelude.{true, ◌≡◌, get_or};
ghost use Rattle.signalling.specs.Messages.{kind_in};
ghost use Rattle.signalling.specs.OnNumbers.{fed, ended_by, not_due, out_item, begun_by, afresh_by, join_by, no_group, no_message, whole_group};
ghost use Rattle.signalling.specs.GroupClauses.{Taking, Stepping};
ghost use Rattle.signalling.specs.Following.{Steps, Begins};
ghost use Rattle.signalling.specs.declared.Kind.TheVariants.{Start, Continuation, End};

use refusals::Refusal;

// What a group is, by its first byte.
#[derive(Clone, Copy)]
pub enum Kind {
    Start,
    Continuation,
    End,
    Other,
}

// The group being gathered: the phase due, whether a phase 0 is waited for after a drop, and the MNSC of the frames so far.
// Not an enum of what is gathered: the C interface keeps every byte of a state that its caller put together, so also the pairs that no phase has filled.
#[derive(Clone, Copy)]
pub struct Group {
    pub due: u8,
    pub waiting: bool,
    pub p0: u16,
    pub p1: u16,
    pub p2: u16,
}

// The message being strung: its type, GrNb, the continuations so far, and the sum's register.
// Not an Option of the four: the C interface keeps every byte of a state that its caller put together, also where no message is open.
#[derive(Clone, Copy)]
pub struct Opened {
    pub on: bool,
    pub kind: u8,
    pub grnb: u8,
    pub count: u8,
    pub crc: u16,
}

#[derive(Clone, Copy)]
pub struct State {
    pub group: Group,
    pub message: Opened,
}

// Nothing, a message (type and length; its bytes are the first of the buffer lent), a drop with its reason, or a call refused.
// Not an Option or a Result: an item has the four kinds that C is told.
#[derive(Clone, Copy)]
pub enum Item {
    Nothing,
    Message(u8, usize),
    Drop(Refusal),
    Refused(Refusal),
}

// What a whole group tells of, and the message that is open after it.
// Not one generic struct with Step: the definitions of a group and of a frame are over what each is called here.
#[derive(Clone, Copy)]
pub struct Taken {
    pub item: Item,
    pub message: Opened,
}

// What a frame tells of, and the state after it.
#[derive(Clone, Copy)]
pub struct Step {
    pub item: Item,
    pub state: State,
}

// The register's word after the bytes.
fn more(crc: u16, bytes: &[u8]) -> u16
    ensures { result ≡ fed crc bytes.now }
{
    let mut register = crc;
    for b in bytes {
        register = sum::step(register, *b);
    }
    register
}

#[tactic(auto, using(octets::proofs::Deciding::tests), unfolding(crate::specs::Messages::kind_in))]
fn kind_in(sb0: u8) -> Kind
    ensures { result ≡ kind_in sb0 }
{
    if sb0 / 64 != 3 {
        return Kind::Other;
    }
    match sb0 % 16 {
        0 => Kind::Start,
        3 => Kind::Continuation,
        12 => Kind::End,
        _ => Kind::Other,
    }
}

fn no_message() -> Opened
    ensures { result ≡ no_message }
{
    Opened {
        on: false,
        kind: 0,
        grnb: 0,
        count: 0,
        crc: 0,
    }
}

fn not_due() -> Taken
    ensures { result ≡ not_due }
{
    Taken {
        item: Item::Drop(Refusal::OutOfTurn),
        message: no_message(),
    }
}

impl Opened {
    // A start opens a message, and one that was open is dropped.
    fn take_start(self, g: &[u8; 8], bytes: &mut [u8]) -> Taken
        ensures { Taking Start self g.now bytes.old result bytes.new }
    {
        putting::put_bytes(bytes, 0, &g[4..]);
        let crc = more(0xffff, g);
        let message = Opened {
            on: true,
            kind: g[2],
            grnb: g[3],
            count: 0,
            crc,
        };
        if self.on {
            return Taken {
                item: Item::Drop(Refusal::OutOfTurn),
                message,
            };
        }
        Taken {
            item: Item::Nothing,
            message,
        }
    }

    fn take_continuation(self, g: &[u8; 8], bytes: &mut [u8]) -> Taken
        ensures { Taking Continuation self g.now bytes.old result bytes.new }
    {
        if self.on && self.count < self.grnb {
            putting::put_bytes(bytes, 4 + 6 * usize::from(self.count), &g[2..]);
            let crc = more(self.crc, g);
            let message = Opened {
                count: self.count + 1,
                crc,
                ..self
            };
            return Taken {
                item: Item::Nothing,
                message,
            };
        }
        not_due()
    }

    // An end that is due.
    fn ended(self, g: &[u8; 8]) -> Taken
        requires { (self.count ≡ self.grnb) × (self.on ≡ true) }
        ensures { result ≡ ended_by self g.now }
    {
        let sum = !more(self.crc, &g[..6]);
        let sent = u16::from_be_bytes([g[6], g[7]]);
        let message = no_message();
        if sum != sent {
            return Taken {
                item: Item::Drop(Refusal::ClosingSum),
                message,
            };
        }
        Taken {
            item: Item::Message(self.kind, 8 + 6 * usize::from(self.count)),
            message,
        }
    }

    fn take_end(self, g: &[u8; 8], bytes: &mut [u8]) -> Taken
        ensures { Taking End self g.now bytes.old result bytes.new }
    {
        if self.on && self.count == self.grnb {
            putting::put_bytes(bytes, 4 + 6 * usize::from(self.count), &g[2..6]);
            return self.ended(g);
        }
        not_due()
    }

    // A whole group, SB0 to SB7.
    fn take(self, g: &[u8; 8], bytes: &mut [u8]) -> Taken
        ensures { Taking (kind_in (get_or g.now 0 0)) self g.now bytes.old result bytes.new }
    {
        match kind_in(g[0]) {
            Kind::Start => self.take_start(g, bytes),
            Kind::Continuation => self.take_continuation(g, bytes),
            Kind::End => self.take_end(g, bytes),
            Kind::Other => Taken {
                item: Item::Nothing,
                message: self,
            },
        }
    }
}

fn no_group(waiting: bool) -> Group
    ensures { result ≡ no_group waiting }
{
    Group {
        due: 0,
        waiting,
        p0: 0,
        p1: 0,
        p2: 0,
    }
}

// The group that a phase 0 begins.
fn begun(mnsc: u16) -> Group
    ensures { result ≡ begun_by mnsc }
{
    Group {
        due: 1,
        waiting: false,
        p0: mnsc,
        p1: 0,
        p2: 0,
    }
}

// A phase 0 begins the next group at once; after any other one is waited for.
#[tactic(auto, using(octets::proofs::Deciding::tests), unfolding(crate::specs::OnNumbers::afresh_by))]
fn afresh(phase: u8, mnsc: u16) -> Group
    ensures { result ≡ afresh_by phase mnsc }
{
    if phase == 0 {
        return begun(mnsc);
    }
    no_group(true)
}

impl Group {
    // What is told of a frame out of turn: the drop, once.
    #[tactic(auto, using(octets::proofs::Deciding::tests), unfolding(crate::specs::OnNumbers::out_item))]
    fn out_of_turn(self) -> Item
        ensures { result ≡ out_item self.waiting }
    {
        if self.waiting {
            return Item::Nothing;
        }
        Item::Drop(Refusal::OutOfPhase)
    }

    // A frame in turn that is not the fourth.
    #[tactic(auto, using(octets::proofs::Deciding::tests), unfolding(crate::specs::OnNumbers::join_by))]
    fn join(self, mnsc: u16) -> Group
        ensures { result ≡ join_by self mnsc }
    {
        match self.due {
            0 => begun(mnsc),
            1 => Group {
                due: 2,
                waiting: false,
                p0: self.p0,
                p1: mnsc,
                p2: 0,
            },
            _ => Group {
                due: 3,
                waiting: false,
                p2: mnsc,
                ..self
            },
        }
    }

    // The group that the fourth frame makes whole: SB0 to SB7, each pair high byte first.
    fn whole(self, mnsc: u16) -> [u8; 8]
        ensures { result ≡ whole_group self mnsc }
    {
        let [b0, b1] = self.p0.to_be_bytes();
        let [b2, b3] = self.p1.to_be_bytes();
        let [b4, b5] = self.p2.to_be_bytes();
        let [b6, b7] = mnsc.to_be_bytes();
        [b0, b1, b2, b3, b4, b5, b6, b7]
    }
}

impl State {
    // One frame more, the buffer being long enough. Out of turn the group is dropped, and an open message stays open.
    fn feed(self, fp: u8, mnsc: u16, bytes: &mut [u8]) -> Step
        ensures { Stepping self fp mnsc bytes.old result bytes.new }
    {
        let State { group, message } = self;
        let phase = fp % 4;
        if phase != group.due {
            let item = group.out_of_turn();
            let group = afresh(phase, mnsc);
            return Step {
                item,
                state: State { group, message },
            };
        }
        if phase != 3 {
            let next = group.join(mnsc);
            return Step {
                item: Item::Nothing,
                state: State {
                    group: next,
                    message,
                },
            };
        }
        let taken = message.take(&group.whole(mnsc), bytes);
        Step {
            item: taken.item,
            state: State {
                group: no_group(false),
                message: taken.message,
            },
        }
    }

    // One frame more: its FP and its MNSC. The message bytes go into the buffer lent, the same at each step; a buffer
    // that is shorter than the longest message is refused for its length, and nothing is changed.
    pub fn step(self, fp: u8, mnsc: u16, bytes: &mut [u8]) -> Step
        ensures { Steps self fp mnsc bytes.old result bytes.new }
    {
        if bytes.len() < 1538 {
            return Step {
                item: Item::Refused(Refusal::Length),
                state: self,
            };
        }
        self.feed(fp, mnsc, bytes)
    }
}

// At the beginning nothing is gathered, and no message is open.
pub fn begin() -> State
    ensures { Begins result }
{
    let group = no_group(false);
    let message = no_message();
    State { group, message }
}
