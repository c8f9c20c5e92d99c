// A text of limited length written as a trace, with the line that says why it wasn't, and both handed to two writers
// one buffer after the other. What is handed over, in which order and what is left in the lent buffers is promised; whether
// the operating system takes it is outside every contract.
// Input and buffers are apart: the one is read, and what comes of it goes into the others.
#![tactic(auto)]

ghost use Rattle.std.specs.Prelude.{◌≡◌, true, ◌≤◌, ◌<◌, length};
ghost use Rattle.std.specs.Io.KnownBytes.{Appends};
ghost use Rattle.text_meaning.specs.Writing.{wrote, write_said, PlaceWithin};
ghost use Rattle.text_scribe.specs.Scribe.{limit, line_room, said_of, trace_long, line_long, ScribePromise};
ghost use Rattle.text_scribe.specs.Handed.{Passed, Handed, Taken};

use std::io::Write;
use text_meaning::WriteError;

// The octets of a text that are taken.
const LIMIT: usize = 524288;

// Writes a text of at most the limit; one that goes on beyond is refused.
fn write_within(input: &[u8], out: &mut [u8]) -> Result<usize, WriteError>
    ensures out_after { wrote result out.new ≡ write_said (said_of input.now) out.old }
    ensures place_le_limit { PlaceWithin limit result }
{
    if input.len() <= LIMIT {
        return text_write::write(input, out);
    }
    match text_write::judge(&input[..LIMIT], 0) {
        Err(WriteError::Unreadable { place }) => Err(WriteError::Unreadable { place }),
        Ok(_) => Err(WriteError::Unreadable { place: LIMIT }),
        Err(WriteError::TooShort { .. }) => Err(WriteError::Unreadable { place: LIMIT }),
    }
}

// So many octets of the trace of a text, and nothing in the line; or nothing of the trace, and so many octets of the line
// `stop 10 PLACE` or `stop 14`.
// There is no heap: both buffers are lent, and the answer says how much of the one or the other is used.
fn scribe(input: &[u8], out: &mut [u8], line: &mut [u8]) -> Result<usize, usize>
    requires { line_room ≤ length line.old }
    ensures scribe_promise { ScribePromise input.now out.old line.old result out.new line.new }
    ensures trace_in_bounds { (trace_long result ≤ length out.old) × (line_long result ≤ line_room) }
{
    match write_within(input, out) {
        Ok(long) => Ok(long),
        Err(WriteError::Unreadable { place }) => Err(list_lines::stop_line(line, 0, place as u32)),
        Err(WriteError::TooShort { .. }) => Err(list_lines::text(line, 0, b"stop 14\n")),
    }
}

// Fills the buffer with what comes next and writes it out, until all is handed over, or until a write fails.
// There is no heap: the buffer is lent, and `Fills` says of each fill what it puts there and how much of it is used.
fn pass<W: Write>(to: &mut W, all: &[u8], out: &mut [u8]) -> bool
    requires { 0 < length out.old }
    ensures passed { Passed all.now out.old result out.new }
    ensures written { result ≡ true → Appends (W.contents to.old) (W.contents to.new) all.now }
{
    for part in all.chunks(out.len()) {
        let used = list_lines::text(out, 0, part);
        if to.write_all(&out[..used]).is_err() {
            return false;
        }
    }
    true
}

// Makes the one or the other, and hands it over.
// There is no heap: either stands in the front of a lent buffer, as long as `scribe` says.
fn hand<W: Write, E: Write>(
    trace: &mut W,
    error: &mut E,
    input: &[u8],
    whole: &mut [u8],
    line: &mut [u8],
    out: &mut [u8],
) -> bool
    requires { (line_room ≤ length line.old) × (0 < length out.old) }
    ensures handed { Handed input.now whole.old line.old out.old result whole.new line.new out.new }
    ensures written { result ≡ true → Taken input.now (length whole.old) (W.contents trace.old) (W.contents trace.new)
        (E.contents error.old) (E.contents error.new) }
{
    match scribe(input, whole, line) {
        Ok(long) => pass(trace, &whole[..long], out),
        Err(long) => pass(error, &line[..long], out),
    }
}

// Makes the trace of a text, or the line that says why there is none, and hands the one to one writer, the other to the
// other, by way of a buffer. Answers whether all of it was written.
pub fn hand_over<W: Write, E: Write>(
    trace: &mut W,
    error: &mut E,
    input: &[u8],
    whole: &mut [u8],
    line: &mut [u8; 64],
    out: &mut [u8; 65536],
) -> bool
    ensures handed { Handed input.now whole.old line.old out.old result whole.new line.new out.new }
    ensures written { result ≡ true → Taken input.now (length whole.old) (W.contents trace.old) (W.contents trace.new)
        (E.contents error.old) (E.contents error.new) }
{
    hand(trace, error, input, whole, line, out)
}
