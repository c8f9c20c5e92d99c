// One step of a run with what it writes: a slot, or one record of the trace, or the end.
// Run, buffer and place stay apart, as `DidLent` has them: a struct with the buffer in it adds two clauses (see `list_lines`).
#![tactic(auto)]

ghost use Rattle.std.specs.Prelude.{◌≡◌, ◌+◌, ◌≤◌, true, false, [], length};
ghost use Rattle.list_lines.specs.Put.{Put};
ghost use Rattle.list_lines.specs.Lines.{stop_line};
ghost use Rattle.meaning.specs.Calls.{kind_number};
ghost use Rattle.trace_record.specs.Trace.{head_options, record_of};
ghost use Rattle.list_meaning.specs.Trace.{set_up, limit};
ghost use Rattle.list_meaning.specs.Trace.{serve as Trace·serve};
ghost use Rattle.list_meaning.specs.Listing.{end_of};
ghost use Rattle.list_whole.specs.Run.{World, onward, counted_if, called, ended, record_step, read_step};
ghost use Rattle.list_whole.specs.declared.Run.{Run as AnyRun};
ghost use Rattle.list_whole.specs.Run.{counted as Run·counted};
ghost use Rattle.list_whole.specs.Fill.{room, CellWithin};
ghost use Rattle.list_whole.specs.Lent.{world_in, world_before, SameMemory, DidLent, DidParts, DidAlone};

mod connection;

use call_connection::{NO_SECOND, Name, Peak, Second};
use list_meaning::Tally;
use list_whole::{Filled, Memory, Run};
use meaning::Answer;
use trace_record::{Event, Found, Head};

fn counted_if(n: u32, on: bool) -> u32
    ensures { result ≡ counted_if on n }
{
    n.wrapping_add(u32::from(on))
}

// Verdict and space are numbers, as the answer that C is handed has them.
fn counted(t: Tally, a: Answer) -> Tally
    ensures { result ≡ Run·counted t a }
{
    Tally {
        accepted: counted_if(t.accepted, meaning::lets_in(a.verdict)),
        excess: counted_if(t.excess, a.verdict == 2),
        unknown: counted_if(t.unknown, a.verdict == 3),
        sent: counted_if(t.sent, a.space != 65535),
    }
}

// One slot with its line; the run goes on at `at`, with so many slots left of a pause.
pub fn serve_with(
    run: Run,
    at: u32,
    left: u16,
    memory: &mut Memory,
    cell: &[u8],
    out: &mut [u8],
    used: usize,
) -> Filled
    requires { used + 64 ≤ length out.old }
    ensures did { DidLent (called (world_in run memory.old) (Trace·serve cell.now) at left) 64 memory out used result }
    ensures same { SameMemory memory.old memory.new }
{
    let served = call_slot::slot(
        run.ctl,
        memory.cells,
        memory.links,
        memory.calendar,
        memory.words,
        memory.bits,
        memory.arrived,
        cell,
    );
    let end = list_lines::slot_line(out, used, served.ctl.t, served.answer);
    Filled {
        run: Run {
            ctl: served.ctl,
            at,
            left,
            done: false,
            tally: counted(run.tally, served.answer),
        },
        used: end,
    }
}

// The same with the memory part by part, so that who lends a part of a larger slice knows afterwards what that part holds.
pub fn serve(
    run: Run,
    at: u32,
    left: u16,
    cells: &mut [u8],
    links: &mut [u16],
    calendar: &mut [u16],
    words: &mut [u32],
    bits: &mut [u64],
    arrived: &mut [u32],
    cell: &[u8],
    out: &mut [u8],
    used: usize,
) -> Filled
    requires { used + 64 ≤ length out.old }
    ensures { DidParts (called (world_before run cells links calendar words bits arrived) (Trace·serve cell.now) at left) 64 cells links calendar words bits arrived out used result }
{
    let mut memory = Memory {
        cells,
        links,
        calendar,
        words,
        bits,
        arrived,
    };
    serve_with(run, at, left, &mut memory, cell, out, used)
}

// The end line of the counts.
fn end_tally(out: &mut [u8], at: usize, t: Tally) -> usize
    requires { at + 80 ≤ length out.old }
    ensures put { Put out.old at (end_of t) out.new result }
    ensures upper_bound { result ≤ at + 80 }
{
    let waiting = t.accepted.wrapping_sub(t.sent);
    list_lines::end_line(out, at, t.accepted, t.excess, t.unknown, t.sent, waiting)
}

// What a trace's head chooses at setup: whether its cells come raw.
fn is_raw(head: Head) -> bool
    ensures { result ≡ (head_options head).raw }
{
    matches!(head, Head::Gr)
}

// The line kind that it chooses: 0 UNI, 1 NNI.
// It is a number, as `clurimoon_setup` takes it from C, and `call_setup::setup` with it.
fn line_kind(head: Head) -> u16
    ensures { result ≡ kind_number (head_options head).kind }
{
    match head {
        Head::Gm | Head::Gr => 0,
        Head::Gn => 1,
    }
}

// A setup as the trace's head has it, with its line; a refused one ends the run. A trace has no split: with both 1 every connection is
// the second operator's, as whom all calls are made.
fn set_up(
    n: u16,
    v: u16,
    head: Head,
    next: u32,
    memory: &mut Memory,
    out: &mut [u8],
    used: usize,
) -> Filled
    requires { used + room ≤ length out.old }
    ensures did { (run : AnyRun) → DidLent (called (world_in run memory.old) (set_up n v (head_options head)) next 0) room memory out used result }
    ensures same { SameMemory memory.old memory.new }
{
    let raw = is_raw(head);
    let kind = line_kind(head);
    let fresh = call_setup::setup(
        n,
        v,
        raw,
        kind,
        1,
        1,
        memory.cells,
        memory.links,
        memory.calendar,
        memory.words,
        memory.bits,
        memory.arrived,
    );
    let line = list_lines::setup_line(out, used, n, v, fresh.number);
    let run = Run {
        ctl: fresh.ctl,
        at: next,
        left: 0,
        done: false,
        tally: Tally::default(),
    };
    // `Fresh` is C's struct: its number tells a good setup from a refused one, and no Result does
    if fresh.number == 0 {
        return Filled { run, used: line };
    }
    let end = end_tally(out, line, run.tally);
    Filled {
        run: Run { done: true, ..run },
        used: end,
    }
}

// The run that is done.
fn over(run: Run) -> Run
    ensures { result ≡ onward run.ctl run.at run.left true run.tally }
{
    Run { done: true, ..run }
}

// The end line.
fn end_run(run: Run, out: &mut [u8], used: usize) -> Filled
    requires { used + room ≤ length out.old }
    ensures { DidAlone (λ (w : World). ended w []) room run out used result }
{
    let end = end_tally(out, used, run.tally);
    Filled {
        run: over(run),
        used: end,
    }
}

// The stop line with the place from which the trace can't be read on, then the end line.
fn stop_run(run: Run, place: u32, out: &mut [u8], used: usize) -> Filled
    requires { used + room ≤ length out.old }
    ensures { DidAlone (λ (w : World). ended w (stop_line place)) room run out used result }
{
    let line = list_lines::stop_line(out, used, place);
    let end = end_tally(out, line, run.tally);
    Filled {
        run: over(run),
        used: end,
    }
}

// One record: its call with its line, or a pause that begins.
// One `match` on the event chooses the call, and nothing plainer does.
fn happen(
    trace: &[u8],
    run: Run,
    event: Event,
    next: u32,
    memory: &mut Memory,
    out: &mut [u8],
    used: usize,
) -> Filled
    requires room_in_bounds { (used + room ≤ length out.old) × (run.done ≡ false) }
    requires cell_within { CellWithin trace.now (record_of event) }
    ensures did { DidLent (record_step trace.now (world_in run memory.old) (record_of event) next) room memory out used result }
    ensures same { SameMemory memory.old memory.new }
{
    match event {
        Event::Setup { n, v, head } => set_up(n, v, head, next, memory, out, used),
        Event::Open { vci, m, f, c } => {
            let peak = Peak { m, f, c };
            connection::open_connection(
                run,
                Name::Vc(vci),
                peak,
                NO_SECOND,
                next,
                memory.words,
                out,
                used,
            )
        }
        Event::Close { vci } => connection::close_connection(
            run,
            Name::Vc(vci),
            next,
            memory.words,
            out,
            used,
        ),
        Event::Cell { start } => {
            let end = start + 53;
            serve_with(run, next, 0, memory, &trace[start..end], out, used)
        }
        Event::Pause { slots } => Filled {
            run: connection::moved(run, next, slots),
            used,
        },
        Event::Sustain {
            vci,
            m,
            f,
            c,
            m2,
            f2,
            c2,
            tag,
        } => {
            let peak = Peak { m, f, c };
            let second = Second {
                m: m2,
                f: f2,
                c: c2,
                tag,
            };
            connection::open_connection(
                run,
                Name::Vc(vci),
                peak,
                second,
                next,
                memory.words,
                out,
                used,
            )
        }
        Event::OpenPath { vpi, m, f, c } => {
            let peak = Peak { m, f, c };
            connection::open_connection(
                run,
                Name::Path(vpi),
                peak,
                NO_SECOND,
                next,
                memory.words,
                out,
                used,
            )
        }
        Event::ClosePath { vpi } => connection::close_connection(
            run,
            Name::Path(vpi),
            next,
            memory.words,
            out,
            used,
        ),
    }
}

// One step that is no slot of a pause.
pub fn one_with(
    trace: &[u8],
    more: bool,
    run: Run,
    memory: &mut Memory,
    out: &mut [u8],
    used: usize,
) -> Filled
    requires room_in_bounds { (used + room ≤ length out.old) × (run.done ≡ false) }
    requires trace_len_bound { length trace.now ≤ limit }
    ensures did { DidLent (read_step more trace.now (world_in run memory.old)) room memory out used result }
    ensures same { SameMemory memory.old memory.new }
{
    let found = trace_record::event_at(trace, run.at as usize);
    // Document 01 asks for a let .. else here, whose else branch carries the place to the stop line.
    let Found::Read { event, next } = found else {
        return match found {
            Found::Unreadable { place } => stop_run(run, place as u32, out, used),
            _ if more => stop_run(run, run.at, out, used),
            _ => end_run(run, out, used),
        };
    };
    happen(trace, run, event, next as u32, memory, out, used)
}

// The same with the memory part by part, as `serve` has it.
pub fn one(
    trace: &[u8],
    more: bool,
    run: Run,
    cells: &mut [u8],
    links: &mut [u16],
    calendar: &mut [u16],
    words: &mut [u32],
    bits: &mut [u64],
    arrived: &mut [u32],
    out: &mut [u8],
    used: usize,
) -> Filled
    requires room_in_bounds { (used + room ≤ length out.old) × (run.done ≡ false) }
    requires trace_len_bound { length trace.now ≤ limit }
    ensures { DidParts (read_step more trace.now (world_before run cells links calendar words bits arrived)) room cells links calendar words bits arrived out used result }
{
    let mut memory = Memory {
        cells,
        links,
        calendar,
        words,
        bits,
        arrived,
    };
    one_with(trace, more, run, &mut memory, out, used)
}
