// Reading a trace: what stands at a place of it, on a plain slice and a number.
#![tactic(auto)]

ghost use Rattle.std.specs.Prelude.{◌≡◌, ◌↔◌, ◌+◌, ◌≤◌, ◌<◌, length};
ghost use Rattle.trace_record.specs.Marks.{letters_of, mark_octets};
ghost use Rattle.trace_record.specs.Trace.{head_mark, be16, be32, record_at, said_of};
ghost use Rattle.trace_record.specs.Promises.{event_promise, place_promise};

pub mod mark;

pub use mark::Mark;

// The mark of the first record: GM; GR, whose trace is raw; GN, whose trace is of the NNI.
#[derive(Clone, Copy)]
pub enum Head {
    Gm,
    Gr,
    Gn,
}

impl Head {
    // The mark of a trace that begins so.
    pub fn mark(self) -> Mark
        ensures { letters_of result ≡ head_mark self }
    {
        match self {
            Head::Gm => Mark::Gm,
            Head::Gr => Mark::Gr,
            Head::Gn => Mark::Gn,
        }
    }
}

// A record of a trace. Open is a VO; Sustain is a VS, with the second bucket's m, F and C and the tagging flag; OpenPath and
// ClosePath are PO and PX. A cell's 53 octets start at octet `start` of the trace.
#[derive(Clone, Copy)]
pub enum Event {
    Setup {
        n: u16,
        v: u16,
        head: Head,
    },
    Open {
        vci: u16,
        m: u8,
        f: u32,
        c: u32,
    },
    Close {
        vci: u16,
    },
    Cell {
        start: usize,
    },
    Pause {
        slots: u16,
    },
    Sustain {
        vci: u16,
        m: u8,
        f: u32,
        c: u32,
        m2: u8,
        f2: u32,
        c2: u32,
        tag: u8,
    },
    OpenPath {
        vpi: u16,
        m: u8,
        f: u32,
        c: u32,
    },
    ClosePath {
        vpi: u16,
    },
}

// What stands at a place: a record, and where the next one starts; the end; or nothing that can be read (10).
// An enum of its own, and no Result of an Option: document 01 has let .. else take the reader's enum answer apart.
#[derive(Clone, Copy)]
pub enum Found {
    Read { event: Event, next: usize },
    End,
    Unreadable { place: usize },
}

// The octets of a mark.
const MARK_LONG: usize = 2;

// High octet first, in both widths.
fn u16_at(s: &[u8], i: usize) -> u16
    requires { i + 2 ≤ length s.now }
    ensures { result ≡ be16 s.now i }
{
    u16::from_be_bytes([s[i], s[i + 1]])
}

fn u32_at(s: &[u8], i: usize) -> u32
    requires { i + 4 ≤ length s.now }
    ensures { result ≡ be32 s.now i }
{
    u32::from_be_bytes([s[i], s[i + 1], s[i + 2], s[i + 3]])
}

// The record of a mark that stands at a place. It is measured before it is read: a short one is refused where it starts, and so is
// a pause of no slots. A cell is not copied: the answer names where its octets start.
#[inline(always)]
fn record_at(s: &[u8], at: usize, mark: Mark) -> Found
    requires { at + mark_octets ≤ length s.now }
    ensures { said_of result ≡ record_at s.now at mark }
{
    let long = mark.record_long();
    if s.len() - at < long {
        return Found::Unreadable { place: at };
    }
    // a VCI, a VPI, a count of slots or N: every record has a number behind its mark, but a cell, which is longer
    let number = u16_at(s, at + MARK_LONG);
    let event = match mark {
        Mark::Ca => Event::Cell {
            start: at + MARK_LONG,
        },
        Mark::Sl if number == 0 => return Found::Unreadable { place: at },
        Mark::Sl => Event::Pause { slots: number },
        Mark::Vo => Event::Open {
            vci: number,
            m: s[at + 4],
            f: u32_at(s, at + 5),
            c: u32_at(s, at + 9),
        },
        Mark::Vx => Event::Close { vci: number },
        Mark::Vs => Event::Sustain {
            vci: number,
            m: s[at + 4],
            f: u32_at(s, at + 5),
            c: u32_at(s, at + 9),
            m2: s[at + 13],
            f2: u32_at(s, at + 14),
            c2: u32_at(s, at + 18),
            tag: s[at + 22],
        },
        Mark::Po => Event::OpenPath {
            vpi: number,
            m: s[at + 4],
            f: u32_at(s, at + 5),
            c: u32_at(s, at + 9),
        },
        Mark::Px => Event::ClosePath { vpi: number },
        Mark::Gm => Event::Setup {
            n: number,
            v: u16_at(s, at + 4),
            head: Head::Gm,
        },
        Mark::Gr => Event::Setup {
            n: number,
            v: u16_at(s, at + 4),
            head: Head::Gr,
        },
        Mark::Gn => Event::Setup {
            n: number,
            v: u16_at(s, at + 4),
            head: Head::Gn,
        },
    };
    Found::Read {
        event,
        next: at + long,
    }
}

// What stands at a place, for every trace and every number. GM, GR or GN is first and only first.
// It and `record_at` are inlined: a call puts all of an answer into memory, where most callers need little of it. With calls
// `salvage` takes 20.6 million instructions for 131,070 records SL 1, and 11.5 million without.
#[inline(always)]
pub fn event_at(trace: &[u8], at: usize) -> Found
    ensures { event_promise trace.now at result }
{
    // an empty trace has no first record, and no end
    if at == trace.len() && at != 0 {
        return Found::End;
    }
    match Mark::at(trace, at) {
        Some(mark) if mark.is_head() == (at == 0) => record_at(trace, at, mark),
        _ => Found::Unreadable { place: at },
    }
}

// Where a reader goes on after an answer: at the end, and where nothing can be read, it stays.
pub fn place_after(found: Found, at: usize) -> usize
    ensures { place_promise found at result }
{
    let Found::Read { event: _, next } = found else {
        return at;
    };
    next
}
