// The text of a trace, handed to a writer one buffer after the other, and a refusal handed to another. What is handed
// over, in which order and what is left in the lent buffer is promised; whether the operating system takes it is outside
// every contract.
#![tactic(auto)]

ghost use Rattle.std.specs.Prelude.{◌≡◌, ◌≤◌, true, length, take, IfSome};
ghost use Rattle.std.specs.Io.KnownBytes.{Appends};
ghost use Rattle.trace_record.specs.Trace.{stands_at};
ghost use Rattle.list_lines.specs.Put.{Put};
ghost use Rattle.list_lines.specs.Lines.{stop_line};
ghost use Rattle.text_print.specs.Print.{line_room, text_of};
ghost use Rattle.text_show.specs.Shown.{limit, standing, at_end, HandedTo, Shown, ShowPromise, Taken};

use std::io::Write;
use trace_record::Found;

// As `text_print` has it: no line is longer.
const LINE_ROOM: usize = 128;

// So many octets of an input are read as a trace.
const LIMIT: usize = 524288;

// Whether a record stands at a place.
fn stands(trace: &[u8], at: usize) -> bool
    ensures { result ≡ standing (stands_at trace.now at) }
{
    matches!(trace_record::event_at(trace, at), Found::Read { .. })
}

// Fills the buffer and writes it out, until no record stands there: where the lines end. None where a write failed.
// There is no heap: the buffer is lent, and `Printed` says how much of it is used.
fn hand_over<W: Write>(to: &mut W, trace: &[u8], out: &mut [u8]) -> Option<usize>
    requires { line_room ≤ length out.old }
    ensures handed { HandedTo trace.now out.old result out.new }
    ensures written { IfSome result (λ at. Appends (W.contents to.old) (W.contents to.new) (text_of trace.now)) }
{
    let mut at = 0usize;
    // No `for`: each fill says where the next one starts.
    while stands(trace, at) {
        let f = text_print::fill(trace, at, out);
        let used = f.used;
        at = f.at;
        if to.write_all(&out[..used]).is_err() {
            return None;
        }
    }
    Some(at)
}

// Whether a place is the end of an input of so many octets. An empty input has none.
fn at_end(at: usize, total: usize) -> bool
    ensures { result ≡ at_end at total }
{
    0 < at && at == total
}

// The lines of a trace, then `stop 10 PLACE` where they end before the input of `total` octets does.
// There is no heap: the refusal's line is made in the lent buffer too, and is as long as `stop_line` says.
fn tell<W: Write, E: Write>(
    to: &mut W,
    beside: &mut E,
    trace: &[u8],
    total: usize,
    out: &mut [u8],
) -> bool
    requires { (line_room ≤ length out.old) × (length trace.now ≤ limit) }
    ensures shown { Shown trace.now total out.old result out.new }
    ensures written { result ≡ true → Taken trace.now total (W.contents to.old) (W.contents to.new)
        (E.contents beside.old) (E.contents beside.new) }
{
    let Some(at) = hand_over(to, trace, out) else {
        return false;
    };
    if at_end(at, total) {
        return true;
    }
    let used = list_lines::stop_line(out, 0, at as u32);
    beside.write_all(&out[..used]).is_ok()
}

// Hands the text of an input to one writer, and to another `stop 10 PLACE` where a record can't be read. Of an input that
// is longer than 524,288 octets only those are read. Answers whether all of it was written.
// Input and buffer are two parameters: the one is read, the other is where the text goes.
pub fn show<W: Write, E: Write>(to: &mut W, beside: &mut E, input: &[u8], out: &mut [u8]) -> bool
    ensures promise { ShowPromise input.now out.old result out.new }
    ensures written { result ≡ true → Taken (take limit input.now) (length input.now) (W.contents to.old) (W.contents to.new)
        (E.contents beside.old) (E.contents beside.new) }
{
    if out.len() < LINE_ROOM {
        return false;
    }
    let total = input.len();
    tell(to, beside, &input[..total.min(LIMIT)], total, out)
}
