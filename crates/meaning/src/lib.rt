// The structs that pass by value, as C sees them too, the builders of a record, the places of a connection's words, and which verdicts let
// a cell in; what every call does with them stands in specs/.
#![tactic(auto)]

ghost use Rattle.std.specs.Prelude.{◌≡◌, ◌≤◌};
ghost use Rattle.meaning.specs.Numbers.{most_v, nni, lets_in};
ghost use Rattle.meaning.specs.State.{ends_of, record_with, record_in_mode};
ghost use Rattle.meaning.specs.Calls.{zeros, asked_of, chosen, fresh_record};

// The path records, which stand after the V records; a path's connection number is V + VPI.
pub const PATHS: u16 = 256;

// How many words a connection has in the lent memory, and where among them each but the first stands (the first is the open word).
pub const WORDS_PER_CONNECTION: usize = 12;

pub const AT_M: usize = 1;

pub const AT_F: usize = 2;

pub const AT_C: usize = 3;

pub const AT_S: usize = 4;

pub const AT_LAST: usize = 5;

pub const AT_WAITING: usize = 6;

// The second bucket's m, F, C and S, and the tagging flag.
pub const AT_SECOND_M: usize = 7;

pub const AT_SECOND_F: usize = 8;

pub const AT_SECOND_C: usize = 9;

pub const AT_SECOND_S: usize = 10;

pub const AT_TAG: usize = 11;

// The mode of the header check in which a single wrong bit is mended.
const CORRECTION: u16 = 0;

// The control record: N, V, t, T (turn), rotation, the number of free spaces, head and tail of the Output List; whether cells
// come raw, 0 or 1, and the mode of the header check, 0 correction, 1 detection; the line kind, 0 UNI, 1 NNI; the VCI and the path
// number from which on connections are the second operator's.
#[repr(C)]
#[derive(Clone, Copy)]
pub struct Record {
    pub n: u16,
    pub v: u16,
    pub t: u32,
    pub turn: u16,
    pub rotation: u16,
    pub free: u16,
    pub outhead: u16,
    pub outtail: u16,
    pub raw: u16,
    pub mode: u16,
    pub kind: u16,
    pub splitvci: u16,
    pub splitpath: u16,
}

// The answer to one slot: number, verdict, VCI, D, departing space, departing VCI.
#[repr(C)]
#[derive(Clone, Copy)]
pub struct Answer {
    pub number: u16,
    pub verdict: u16,
    pub vci: u16,
    pub d: u16,
    pub space: u16,
    pub departing: u16,
}

// What setup gives back: the refusal number and the record.
#[repr(C)]
#[derive(Clone, Copy)]
pub struct Fresh {
    pub number: u16,
    pub ctl: Record,
}

// What a slot gives back: the record and the answer.
#[repr(C)]
#[derive(Clone, Copy)]
pub struct Served {
    pub ctl: Record,
    pub answer: Answer,
}

// What the call next gives back: the refusal number, and how many slots until a cell leaves; 0 for none.
#[repr(C)]
#[derive(Clone, Copy)]
pub struct Wait {
    pub number: u16,
    pub slots: u16,
}

// A record is built here: as setup leaves it, from another one, and of zeros. A further field is one more line in the last two.
// The record with another clock, number of free spaces and Output List; whatever else it holds is kept.
#[tactic(auto, unfolding(crate::specs::State::record_with))]
pub fn record_with(
    r: Record,
    t: u32,
    turn: u16,
    rotation: u16,
    free: u16,
    outhead: u16,
    outtail: u16,
) -> Record
    ensures { result ≡ record_with r t turn rotation free (ends_of outhead outtail) }
{
    Record {
        t,
        turn,
        rotation,
        free,
        outhead,
        outtail,
        ..r
    }
}

// The record in this mode of the header check.
#[tactic(auto, unfolding(crate::specs::State::record_in_mode))]
pub fn record_in_mode(r: Record, mode: u16) -> Record
    ensures { result ≡ record_in_mode r mode }
{
    Record { mode, ..r }
}

// "a record of zeros"
#[tactic(auto, unfolding(crate::specs::Calls::zeros))]
pub fn no_record() -> Record
    ensures { result ≡ zeros }
{
    Record {
        n: 0,
        v: 0,
        t: 0,
        turn: 0,
        rotation: 0,
        free: 0,
        outhead: 0,
        outtail: 0,
        raw: 0,
        mode: 0,
        kind: 0,
        splitvci: 0,
        splitpath: 0,
    }
}

// "t is 2^32-1, T is N-1", rotation is V + 255; "correction mode, the first"
pub fn fresh_record(n: u16, v: u16, raw: bool, kind: u16, splitvci: u16, splitpath: u16) -> Record
    requires { (1 ≤ n) × (v ≤ most_v) × (kind ≤ nni) }
    ensures { result ≡ fresh_record n v (chosen (asked_of raw kind splitvci splitpath)) }
{
    Record {
        n,
        v,
        t: u32::MAX,
        turn: n - 1,
        rotation: v + 255,
        free: n,
        outhead: 65535,
        outtail: 65535,
        raw: u16::from(raw),
        mode: CORRECTION,
        kind,
        splitvci,
        splitpath,
    }
}

// A cell with this verdict is let in: accepted, or tagged.
#[tactic(auto, unfolding(crate::specs::Numbers::lets_in))]
pub fn lets_in(verdict: u16) -> bool
    ensures { result ≡ lets_in verdict }
{
    matches!(verdict, 1 | 5)
}
