// Mending a trace into two lent buffers: the kept records' octets into one, a line for each skipped stretch into the other.
// What has no room is left for the next fill.
#![tactic(auto)]

ghost use Rattle.std.specs.Prelude.{◌≡◌, ◌∷◌, [], ◌++◌, ◌+◌, ◌≤◌, length};
ghost use Rattle.list_lines.specs.Put.{Put};
ghost use Rattle.mend_step.specs.Salvage.{reads_to};
ghost use Rattle.mend_fill.specs.Lines.{numeral, stretch_line};
ghost use Rattle.mend_fill.specs.Fill.{line_room, begun, fill_of, Took, FillPromise};

use mend_step::Stride;
use trace_record::Found;

// What a fill did: the place to go on at, and how many octets stand in each buffer. The buffers are lent, since there is no heap.
#[derive(Clone, Copy)]
pub struct Filled {
    pub at: usize,
    pub written: usize,
    pub listed: usize,
}

// Why nothing is mended: 17, no readable GM, GR or GN at the start.
#[derive(Clone, Copy, PartialEq, Eq)]
pub enum FillError {
    NoHead,
}

// A cell's record is the longest.
pub const RECORD_ROOM: usize = 55;

// Two numbers of twenty digits, a space and a line feed.
pub const LINE_ROOM: usize = 42;

// A number in decimal, and the octet after it: the digits are made from the last to the first. No `for` over places: they
// end where the number does.
fn number(text: &mut [u8], at: usize, n: usize, after: u8) -> usize
    requires { at + 21 ≤ length text.old }
    ensures put { Put text.old at (numeral n ++ (after ∷ [])) text.new result }
    ensures upper_bound { result ≤ at + 21 }
{
    let mut digits = [0u8; 20];
    let mut i = 19;
    let mut rest = n;
    while 10 <= rest {
        digits[i] = (48 + rest % 10) as u8;
        rest /= 10;
        i -= 1;
    }
    digits[i] = (48 + rest) as u8;
    let end = list_lines::text(text, at, &digits[i..]);
    text[end] = after;
    end + 1
}

// `FIRST LENGTH`
// Text and place stay apart: a struct of both adds two clauses to each contract (see `list_lines`).
fn stretch_line(text: &mut [u8], at: usize, first: usize, long: usize) -> usize
    requires { at + line_room ≤ length text.old }
    ensures put { Put text.old at (stretch_line first long) text.new result }
    ensures upper_bound { result ≤ at + line_room }
{
    let end = number(text, at, first, 32);
    number(text, end, long, 10)
}

// Pieces from a place on, as long as both buffers have room for the next, be it a record or a line.
fn pieces(trace: &[u8], total: usize, at: usize, out: &mut [u8], text: &mut [u8]) -> Filled
    ensures { Took trace.now at
        (fill_of trace.now total at (length out.old) (length text.old))
        out.old text.old result out.new text.new }
{
    let mut f = Filled {
        at,
        written: 0,
        listed: 0,
    };
    // no `for`: each stride says where the next begins
    while f.at < total
        && RECORD_ROOM <= out.len() - f.written
        && LINE_ROOM <= text.len() - f.listed
    {
        match mend_step::step(trace, total, f.at) {
            Stride::Kept { next } => {
                f.written = list_lines::text(out, f.written, &trace[f.at..next]);
                f.at = next;
            }
            Stride::Skipped { next } => {
                f.listed = stretch_line(text, f.listed, f.at, next - f.at);
                f.at = next;
            }
        }
    }
    f
}

// Whether a trace begins with a record, which only a GM, a GR or a GN can be.
pub fn begins(trace: &[u8]) -> bool
    ensures { result ≡ begun (reads_to trace.now 0) }
{
    matches!(trace_record::event_at(trace, 0), Found::Read { .. })
}

// Fills both buffers from their starts with what comes next of the mended trace and of the list of stretches. The input has
// `total` octets, and `trace` is all of it or its front. Only at the start can it be refused.
pub fn fill(
    trace: &[u8],
    total: usize,
    at: usize,
    out: &mut [u8],
    text: &mut [u8],
) -> Result<Filled, FillError>
    ensures { FillPromise trace.now total at out.old text.old result out.new text.new }
{
    if at == 0 && !begins(trace) {
        return Err(FillError::NoHead);
    }
    Ok(pieces(trace, total, at, out, text))
}
