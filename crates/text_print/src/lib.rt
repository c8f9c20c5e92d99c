// The text of a trace, a line a record: lines go into a lent buffer, one fill after the other.
// Buffer and place stay apart, as `Put` has them: a struct of both adds two clauses to each contract (see `list_lines`).
#![tactic(auto)]

ghost use Rattle.std.specs.Prelude.{◌≡◌, List, [], ◌∷◌, ◌++◌, ℕ, ◌+◌, ◌≤◌, ◌<◌, length, take, drop};
ghost use Rattle.list_lines.specs.Put.{Put};
ghost use Rattle.trace_record.specs.Trace.{record_of};
ghost use Rattle.trace_record.specs.Marks.{letters_of};
ghost use Rattle.trace_record.specs.Trace.{GM as Trace-as-GM, CA as Trace-as-CA, SL as Trace-as-SL};
ghost use Rattle.trace_record.specs.Trace.{VS as Trace-as-VS};
ghost use Rattle.meaning.specs.Words.{second_of};
ghost use Rattle.text_meaning.specs.Shapes.{of16};
ghost use Rattle.text_print.specs.Print.{hex_digit, hex_pair, hex_of, opening_line, closing_line, line_of};
ghost use Rattle.text_print.specs.Print.{line_room, CellWithin};
ghost use Rattle.text_print.specs.Fill.{FillPromise};

use trace_record::{Event, Found, Head, Mark};

// Where a fill ended: the place in the trace, and how many octets of the buffer it used. Both are always there, so no Option and
// no Result says more.
#[derive(Clone, Copy)]
pub struct Printed {
    pub at: usize,
    pub used: usize,
}

// A mark, and the space behind it.
fn mark(out: &mut [u8], at: usize, mark: Mark) -> usize
    requires { at + 3 ≤ length out.old }
    ensures { Put out.old at (of16 (letters_of mark) ++ (32 ∷ [])) out.new result }
{
    let [high, low] = mark.letters().to_be_bytes();
    list_lines::text(out, at, &[high, low, b' '])
}

// Small letters, as most hex tools write them.
fn hex_digit(x: u8) -> u8
    requires { x < 16 }
    ensures { result ≡ hex_digit x }
{
    if x < 10 { b'0' + x } else { 87 + x }
}

fn hex_pair(out: &mut [u8], at: usize, x: u8) -> usize
    requires { at + 2 ≤ length out.old }
    ensures { Put out.old at (hex_pair x) out.new result }
{
    list_lines::text(out, at, &[hex_digit(x / 16), hex_digit(x % 16)])
}

// The 53 octets of a cell that start at a place of the trace.
fn hexes(trace: &[u8], start: usize, out: &mut [u8], at: usize) -> usize
    requires { (start + 53 ≤ length trace.now) × (at + 106 ≤ length out.old) }
    ensures put { Put out.old at (hex_of (take 53 (drop start trace.now))) out.new result }
    ensures value { result ≡ at + 106 }
{
    let mut to = at;
    for i in 0..53 {
        to = hex_pair(out, to, trace[start + i]);
    }
    to
}

fn setup_text(out: &mut [u8], at: usize, n: u16, v: u16, head: Head) -> usize
    requires { at + line_room ≤ length out.old }
    ensures by_index { (trace : List ℕ) → Put out.old at (line_of trace (Trace-as-GM n v head)) out.new result }
    ensures upper_bound { result ≤ at + line_room }
{
    let a = mark(out, at, head.mark());
    let b = list_lines::number(out, a, u32::from(n), 32);
    list_lines::number(out, b, u32::from(v), 10)
}

// An opening, whatever its mark: of a VC or of a path.
fn open_text(
    out: &mut [u8],
    at: usize,
    letters: Mark,
    connection: u16,
    m: u8,
    f: u32,
    c: u32,
) -> usize
    requires { at + line_room ≤ length out.old }
    ensures put { Put out.old at (opening_line (letters_of letters) connection m f c) out.new result }
    ensures upper_bound { result ≤ at + line_room }
{
    let a = mark(out, at, letters);
    let b = list_lines::number(out, a, u32::from(connection), 32);
    let d = list_lines::number(out, b, u32::from(m), 32);
    let e = list_lines::number(out, d, f, 32);
    list_lines::number(out, e, c, 10)
}

// The line of a VO, then the second bucket and the flag.
fn sustain_text(
    out: &mut [u8],
    at: usize,
    vci: u16,
    m: u8,
    f: u32,
    c: u32,
    m2: u8,
    f2: u32,
    c2: u32,
    tag: u8,
) -> usize
    requires { at + line_room ≤ length out.old }
    ensures by_index { (trace : List ℕ) → Put out.old at (line_of trace (Trace-as-VS vci m f c (second_of m2 f2 c2 tag))) out.new result }
    ensures upper_bound { result ≤ at + line_room }
{
    let a = mark(out, at, Mark::Vs);
    let b = list_lines::number(out, a, u32::from(vci), 32);
    let d = list_lines::number(out, b, u32::from(m), 32);
    let e = list_lines::number(out, d, f, 32);
    let g = list_lines::number(out, e, c, 32);
    let h = list_lines::number(out, g, u32::from(m2), 32);
    let i = list_lines::number(out, h, f2, 32);
    let j = list_lines::number(out, i, c2, 32);
    list_lines::number(out, j, u32::from(tag), 10)
}

fn close_text(out: &mut [u8], at: usize, letters: Mark, connection: u16) -> usize
    requires { at + line_room ≤ length out.old }
    ensures put { Put out.old at (closing_line (letters_of letters) connection) out.new result }
    ensures upper_bound { result ≤ at + line_room }
{
    let a = mark(out, at, letters);
    list_lines::number(out, a, u32::from(connection), 10)
}

fn pause_text(out: &mut [u8], at: usize, slots: u16) -> usize
    requires { at + line_room ≤ length out.old }
    ensures by_index { (trace : List ℕ) → Put out.old at (line_of trace (Trace-as-SL slots)) out.new result }
    ensures upper_bound { result ≤ at + line_room }
{
    let a = mark(out, at, Mark::Sl);
    list_lines::number(out, a, u32::from(slots), 10)
}

fn cell_text(trace: &[u8], start: usize, out: &mut [u8], at: usize) -> usize
    requires { (start + 53 ≤ length trace.now) × (at + line_room ≤ length out.old) }
    ensures put { Put out.old at (line_of trace.now (Trace-as-CA start)) out.new result }
    ensures upper_bound { result ≤ at + line_room }
{
    let a = mark(out, at, Mark::Ca);
    let b = hexes(trace, start, out, a);
    list_lines::text(out, b, b"\n")
}

// The line of a record.
// One `match` on the event chooses it, and nothing plainer does.
fn line_text(trace: &[u8], event: Event, out: &mut [u8], at: usize) -> usize
    requires { (CellWithin trace.now (record_of event)) × (at + line_room ≤ length out.old) }
    ensures put { Put out.old at (line_of trace.now (record_of event)) out.new result }
    ensures upper_bound { result ≤ at + line_room }
{
    match event {
        Event::Setup { n, v, head } => setup_text(out, at, n, v, head),
        Event::Open { vci, m, f, c } => open_text(out, at, Mark::Vo, vci, m, f, c),
        Event::Close { vci } => close_text(out, at, Mark::Vx, vci),
        Event::Cell { start } => cell_text(trace, start, out, at),
        Event::Pause { slots } => pause_text(out, at, slots),
        Event::Sustain {
            vci,
            m,
            f,
            c,
            m2,
            f2,
            c2,
            tag,
        } => sustain_text(out, at, vci, m, f, c, m2, f2, c2, tag),
        Event::OpenPath { vpi, m, f, c } => open_text(out, at, Mark::Po, vpi, m, f, c),
        Event::ClosePath { vpi } => close_text(out, at, Mark::Px, vpi),
    }
}

// Fills the buffer from its start with the lines of the records from a place on, while a line surely fits.
pub fn fill(trace: &[u8], at: usize, out: &mut [u8]) -> Printed
    ensures { FillPromise trace.now at out.old result out.new }
{
    let mut place = at;
    let mut used = 0usize;
    // No `for`: each record says where the next one starts.
    while 128 <= out.len() - used {
        let found = trace_record::event_at(trace, place);
        let Found::Read { event, next } = found else {
            return Printed { at: place, used };
        };
        used = line_text(trace, event, out, used);
        place = next;
    }
    Printed { at: place, used }
}
