// A run over a trace: its lines go into a lent buffer, one fill after the other.
// Run, buffer and place stay apart, as `RanLent` has them: a struct with the buffer in it adds two clauses (see `list_lines`).
#![tactic(auto)]

ghost use Rattle.std.specs.Prelude.{◌≡◌, Bool, false, ◌+◌, ◌*◌, ◌≤◌, length};
ghost use Rattle.meaning.specs.Numbers.{most_n, most_v};
ghost use Rattle.trace_record.specs.Trace.{said_of};
ghost use Rattle.list_meaning.specs.Trace.{limit};
ghost use Rattle.list_whole.specs.Fill.{room, start_run, sizes_at, sizes_of};
ghost use Rattle.list_whole.specs.Lent.{SameMemory, RanLent, AdvancedLent, FillLent, FilledLent, FilledParts};

use list_meaning::Tally;
use list_whole::{Filled, Memory, Run, Sizes};
use trace_record::{Event, Found};

// The program reads so many octets of its input.
const LIMIT: usize = 65536;

const NO_SIZES: Sizes = Sizes { n: 0, v: 0 };

// count slots of a pause, with their lines.
fn pause(
    trace: &[u8],
    run: Run,
    memory: &mut Memory,
    out: &mut [u8],
    used: usize,
    count: usize,
) -> Filled
    requires count_le_left { (count ≤ run.left) × (run.done ≡ false) }
    requires count_in_bounds { used + count * 64 + 96 ≤ length out.old }
    ensures ran_lent { (more : Bool) → RanLent more trace.now count run memory out used result }
    ensures same { SameMemory memory.old memory.new }
    ensures used_bound { result.used ≤ used + count * 64 }
{
    let none = &trace[..0];
    let mut now = run;
    let mut end = used;
    for _ in 0..count {
        let f = list_step::serve_with(now, now.at, now.left - 1, memory, none, out, end);
        end = f.used;
        now = f.run;
    }
    Filled {
        run: now,
        used: end,
    }
}

// As many slots of a pause as surely fit, or one step.
fn advance(
    trace: &[u8],
    more: bool,
    run: Run,
    memory: &mut Memory,
    out: &mut [u8],
    used: usize,
) -> Filled
    requires room_in_bounds { (used + room ≤ length out.old) × (run.done ≡ false) }
    requires trace_len_bound { length trace.now ≤ limit }
    ensures advanced { AdvancedLent more trace.now run memory out used result }
    ensures same { SameMemory memory.old memory.new }
{
    if 0 < run.left {
        let count = usize::from(run.left).min((out.len() - used - 96) / 64);
        pause(trace, run, memory, out, used, count)
    } else {
        list_step::one_with(trace, more, run, memory, out, used)
    }
}

// Steps until the run is done or a step's lines might not fit.
// There is no heap: the buffer is lent, and `FillOf` says how much of it is used.
fn fill_trace(trace: &[u8], more: bool, run: Run, memory: &mut Memory, out: &mut [u8]) -> Filled
    requires { length trace.now ≤ limit }
    ensures fill { FillLent more trace.now run memory out result }
    ensures same { SameMemory memory.old memory.new }
{
    let mut now = run;
    let mut used = 0usize;
    // No for: how many turns there are is known only by their steps.
    while 160 <= out.len() - used {
        if now.done {
            return Filled { run: now, used };
        }
        let f = advance(trace, more, now, memory, out, used);
        used = f.used;
        now = f.run;
    }
    Filled { run: now, used }
}

// Fills the buffer from its start with what comes next of the listing.
// What is read and where it goes are two parameters. There is no heap: `out` is lent, and `FillPromise` says how much is used.
pub fn fill_with(input: &[u8], run: Run, memory: &mut Memory, out: &mut [u8]) -> Filled
    ensures filled { FilledLent input run memory out result }
    ensures same { SameMemory memory.old memory.new }
{
    let end = input.len().min(LIMIT);
    let more = LIMIT < input.len();
    fill_trace(&input[..end], more, run, memory, out)
}

// The same with the memory part by part, so that who lends a part of a larger slice knows afterwards what that part holds.
pub fn fill(
    input: &[u8],
    run: Run,
    cells: &mut [u8],
    links: &mut [u16],
    calendar: &mut [u16],
    words: &mut [u32],
    bits: &mut [u64],
    arrived: &mut [u32],
    out: &mut [u8],
) -> Filled
    ensures { FilledParts input run cells links calendar words bits arrived out result }
{
    let mut memory = Memory {
        cells,
        links,
        calendar,
        words,
        bits,
        arrived,
    };
    fill_with(input, run, &mut memory, out)
}

// Where a run begins.
pub fn start() -> Run
    ensures { result ≡ start_run }
{
    Run {
        ctl: meaning::no_record(),
        at: 0,
        left: 0,
        done: false,
        tally: Tally::default(),
    }
}

// N and V of the record that was found, where they are in their ranges.
// No Option: 0 and 0 where there are none, as `list_whole/Fill.sizes_at` has it.
fn sizes_at(found: Found) -> Sizes
    ensures { result ≡ sizes_at (said_of found) }
{
    let Found::Read { event, next: _ } = found else {
        return NO_SIZES;
    };
    let Event::Setup { n, v, head: _ } = event else {
        return NO_SIZES;
    };
    if leaf_refusal::ranges_hold(n, v) {
        Sizes { n, v }
    } else {
        NO_SIZES
    }
}

// N and V for which memory is to be lent: those of the first record.
// No Option here either: `list_whole/Fill.sizes_of` has 0 and 0 where there are none.
pub fn sizes_of(input: &[u8]) -> Sizes
    ensures value { result ≡ sizes_of input.now }
    ensures n_le_most_n { (result.n ≤ most_n) × (result.v ≤ most_v) }
{
    let end = input.len().min(LIMIT);
    sizes_at(trace_record::event_at(&input[..end], 0))
}
