// The listing of an input, handed to a writer one buffer after the other. What is handed over, in which order and
// what is left in the lent memories is promised; whether the operating system takes it is outside every contract.
// `Written` is what `list` promises its caller: each function hands on what the next one promises, so all four state it.
// Input and buffer are two parameters: the one is read, the other is where the listing goes.
#![tactic(auto)]

ghost use Rattle.std.specs.Prelude.{◌≤◌, length};
ghost use Rattle.list_write.specs.Listed.{HandedIn, HandedLent, Ample, ListedLent, Written};
ghost use Rattle.list_whole.specs.Lent.{world_here, world_in, SameMemory};
ghost use Rattle.list_whole.specs.Fill.{room, LentFor, start_run, sizes_of};

use list_whole::Memory;
use meaning::{PATHS, WORDS_PER_CONNECTION};
use std::io::Write;

// Fills the buffer and writes it out, until the listing is whole, or until a write fails.
// There is no heap: one lent buffer is filled again and again, and each fill says how much of it is used.
fn write_fills<W: Write>(to: &mut W, input: &[u8], memory: &mut Memory, out: &mut [u8]) -> bool
    requires lent_for { LentFor (sizes_of input.now) (world_in start_run memory.old) }
    requires room_in_bounds { room ≤ length out.old }
    ensures handed { HandedIn input memory out result }
    ensures same { SameMemory memory.old memory.new }
    ensures written { Written (W.contents to.old) (W.contents to.new) input result }
{
    let mut run = list_fill::start();
    // No for: how many fills there are is known only when the run is done.
    while !run.done {
        let filled = list_fill::fill_with(input, run, memory, out);
        if to.write_all(&out[..filled.used]).is_err() {
            return false;
        }
        run = filled.run;
    }
    true
}

// The same with the memory part by part: what a part of a larger slice holds afterwards is known only where it went into a call as a slice.
fn hand_over<W: Write>(
    to: &mut W,
    input: &[u8],
    cells: &mut [u8],
    links: &mut [u16],
    calendar: &mut [u16],
    words: &mut [u32],
    bits: &mut [u64],
    arrived: &mut [u32],
    out: &mut [u8],
) -> bool
    requires lent_for { LentFor (sizes_of input.now) (world_here start_run cells links calendar words bits arrived) }
    requires room_in_bounds { room ≤ length out.old }
    ensures handed { HandedLent input cells links calendar words bits arrived out result }
    ensures written { Written (W.contents to.old) (W.contents to.new) input result }
{
    let mut memory = Memory {
        cells,
        links,
        calendar,
        words,
        bits,
        arrived,
    };
    write_fills(to, input, &mut memory, out)
}

// Lends those parts of its memory that N and V of the first record ask for.
fn lend<W: Write>(
    to: &mut W,
    input: &[u8],
    cells: &mut [u8],
    links: &mut [u16],
    calendar: &mut [u16],
    words: &mut [u32],
    bits: &mut [u64],
    arrived: &mut [u32],
    out: &mut [u8],
) -> bool
    requires ample { Ample (world_here start_run cells links calendar words bits arrived) }
    requires room_in_bounds { room ≤ length out.old }
    ensures listed { ListedLent input cells links calendar words bits arrived out result }
    ensures written { Written (W.contents to.old) (W.contents to.new) input result }
{
    let sizes = list_fill::sizes_of(input);
    let n = usize::from(sizes.n);
    let octets = 53 * n;
    let ends = 2 * n;
    let many = WORDS_PER_CONNECTION * (usize::from(sizes.v) + PATHS as usize);
    hand_over(
        to,
        input,
        &mut cells[..octets],
        &mut links[..n],
        &mut calendar[..ends],
        &mut words[..many],
        bits,
        &mut arrived[..n],
        out,
    )
}

// Writes the listing of an input, out of memory that is long enough for every N and V, and answers whether all of it was
// written.
pub fn list<W: Write>(
    to: &mut W,
    input: &[u8],
    cells: &mut [u8; 54272],
    links: &mut [u16; 1024],
    calendar: &mut [u16; 2048],
    words: &mut [u32; 15360],
    bits: &mut [u64; 32],
    arrived: &mut [u32; 1024],
    out: &mut [u8; 65536],
) -> bool
    ensures listed { ListedLent input cells links calendar words bits arrived out result }
    ensures written { Written (W.contents to.old) (W.contents to.new) input result }
{
    lend(to, input, cells, links, calendar, words, bits, arrived, out)
}
