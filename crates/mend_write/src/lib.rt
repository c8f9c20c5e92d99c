// A mended trace and the list of its stretches, handed to two writers one buffer after the other. What they
// took is promised where they say which octets they hold; what an operating system does with them is outside every contract.
#![tactic(auto)]

ghost use Rattle.std.specs.Prelude.{◌≡◌, true, ◌≤◌, length};
ghost use Rattle.mend_step.specs.Salvage.{reads_to};
ghost use Rattle.mend_fill.specs.Fill.{record_room, line_room, begun};
ghost use Rattle.mend_write.specs.Handed.{Handed, MendPromise, Taken, Written};
ghost use Rattle.mend_write.specs.Reads.{Reads};

use mend_fill::{LINE_ROOM, RECORD_ROOM};
use std::io::{Read, Write};

// Fills both buffers and writes them out, until the input's end is reached, or until a write fails.
// There is no heap: both buffers are lent, and each fill says how much of them is used.
fn hand_over<M: Write, L: Write>(
    mended: &mut M,
    list: &mut L,
    trace: &[u8],
    total: usize,
    out: &mut [u8],
    text: &mut [u8],
) -> bool
    requires trace_value { begun (reads_to trace.now 0) ≡ true }
    requires record_room_in_bounds { (record_room ≤ length out.old) × (line_room ≤ length text.old) }
    ensures handed { Handed trace.now total out.old text.old result out.new text.new }
    ensures written { result ≡ true → Taken trace.now total (M.contents mended.old) (M.contents mended.new)
        (L.contents list.old) (L.contents list.new) }
{
    let mut at = 0usize;
    // no `for`: each fill says where the next begins
    while at < total {
        let f = mend_fill::fill(trace, total, at, out, text).unwrap();
        at = f.at;
        if mended.write_all(&out[..f.written]).is_err()
            || list.write_all(&text[..f.listed]).is_err()
        {
            return false;
        }
    }
    true
}

// Mends an input of `total` octets, of which `trace` is all or the front, by way of two lent buffers, and answers whether
// all of it was written. Buffers that a record or a line might not fit are not used, and nothing is written.
pub fn mend<M: Write, L: Write>(
    mended: &mut M,
    list: &mut L,
    trace: &[u8],
    total: usize,
    out: &mut [u8],
    text: &mut [u8],
) -> bool
    ensures promise { MendPromise trace.now total out.old text.old result out.new text.new }
    ensures written { Written trace.now total result (M.contents mended.old) (M.contents mended.new)
        (L.contents list.old) (L.contents list.new) }
{
    if !mend_fill::begins(trace) {
        return list.write_all(b"stop 17\n").is_ok();
    }
    if out.len() < RECORD_ROOM || text.len() < LINE_ROOM {
        return false;
    }
    hand_over(mended, list, trace, total, out, text)
}

// One read brings this much at most.
const CHUNK: usize = 65536;

// Up to here a further read can be counted: 2^64 less a read, less 1.
const MOST: usize = 18446744073709486079;

// Why an input was not counted to its end, and how far it was: a read failed, or it is too long to count on.
#[derive(Clone, Copy, PartialEq, Eq)]
pub enum CountError {
    Failed { total: usize },
    TooLong { total: usize },
}

// Reads on to the input's end, and counts what it reads beside the octets that were read before. An input of 2^64 octets
// would be too long.
pub fn count_on<R: Read>(from: &mut R, before: usize) -> Result<usize, CountError>
    ensures { Reads before result }
{
    let mut chunk = [0u8; CHUNK];
    let mut total = before;
    // no `for`: how many reads there will be nobody knows
    while total < MOST {
        let Ok(more) = from.read(&mut chunk) else {
            return Err(CountError::Failed { total });
        };
        if more == 0 {
            return Ok(total);
        }
        total += more;
    }
    Err(CountError::TooLong { total })
}
