// A whole text written as a trace: everything is judged before the first octet is written.
// Output and place stay apart, as `Put` has them: a struct of both adds two clauses to each contract (see `list_lines`).
#![tactic(auto)]

ghost use Rattle.std.specs.Prelude.{◌≡◌, ◌+◌, ◌*◌, ◌≤◌, ◌<◌, length, IsOk};
ghost use Rattle.list_lines.specs.Put.{Put};
ghost use Rattle.text_meaning.specs.Events.{full, sl_of, rest_of, fulls as Events·fulls};
ghost use Rattle.text_meaning.specs.Writing.{wrote, write_text, PlaceWithin};
ghost use Rattle.text_line.specs.Found.{event_found, LongWithin};
ghost use Rattle.text_trip.specs.Flow.{stream, judged};
ghost use Rattle.text_write.specs.Room.{less_of};
ghost use Rattle.text_write.specs.Adds.{adds, rest_long, adds_long, leaves as Adds·leaves, laid_by};

use text_line::Line;
use text_meaning::WriteError;
use trace_record::Mark;

// The most slots of one SL.
const FULL: usize = 65535;

// What is left of the output, unless it is too short. Nothing is counted beyond its end, so that no length wraps.
fn less(room: Option<usize>, n: usize) -> Option<usize>
    ensures { result ≡ less_of room n }
{
    room?.checked_sub(n)
}

// A rest of slots takes one record, or none.
// Told by an `if`: four times a truth value would be no plainer.
fn rest_long(rest: usize) -> usize
    ensures { (result ≡ rest_long rest) × (result ≤ 4) }
{
    if rest == 0 { 0 } else { 4 }
}

// How many octets a line adds.
fn adds_long(rest: usize, line: Line) -> usize
    requires { (rest < full) × LongWithin line }
    ensures { result ≡ adds_long rest line }
{
    match line {
        Line::Record { long } => rest_long(rest) + long,
        Line::Pause { slots } => 4 * ((rest + slots as usize) / FULL),
    }
}

// The slots of a pause that are left behind a line.
fn leaves(rest: usize, line: Line) -> usize
    requires { rest < full }
    ensures { (result ≡ Adds·leaves rest line) × (result < full) }
{
    match line {
        Line::Record { .. } => 0,
        Line::Pause { slots } => (rest + slots as usize) % FULL,
    }
}

// What writing a text into an output of `most` octets answers.
pub fn judge(text: &[u8], most: usize) -> Result<usize, WriteError>
    ensures value { result ≡ judged most (stream text.now) }
    ensures place_in_bounds { PlaceWithin (length text.now) result }
{
    let mut rec = [0u8; 55];
    let mut room = Some(most);
    let mut rest = 0usize;
    let mut p = 0usize;
    // No `for`: each line says where the next one starts.
    while p < text.len() {
        let Some((line, next)) = text_line::line_at(text, p, &mut rec) else {
            return Err(WriteError::Unreadable { place: p });
        };
        room = less(room, adds_long(rest, line));
        rest = leaves(rest, line);
        p = next;
    }
    if p == 0 {
        return Err(WriteError::Unreadable { place: 0 });
    }
    match less(room, rest_long(rest)) {
        Some(left) => Ok(most - left),
        None => Err(WriteError::TooShort { place: 0 }),
    }
}

// One SL record.
fn pause_record(out: &mut [u8], at: usize, count: u16) -> usize
    requires { at + 4 ≤ length out.old }
    ensures { Put out.old at (sl_of count) out.new result }
{
    list_lines::text(out, at, &text_record::numbered(Mark::Sl, count))
}

// Full records of a pause.
fn fulls(out: &mut [u8], at: usize, count: usize) -> usize
    requires { at + 4 * count ≤ length out.old }
    ensures { Put out.old at (Events·fulls count) out.new result }
{
    let mut to = at;
    for _i in 0..count {
        to = pause_record(out, to, 65535);
    }
    to
}

// The rest of a pause: one record, or none.
fn rest_record(out: &mut [u8], at: usize, rest: usize) -> usize
    requires { (at + rest_long rest ≤ length out.old) × (rest < full) }
    ensures { Put out.old at (rest_of rest) out.new result }
{
    if rest == 0 {
        return at;
    }
    pause_record(out, at, rest as u16)
}

// What a line adds: full records of a pause, or the rest of the pause before it and its record's own octets.
fn put_line(out: &mut [u8], at: usize, rest: usize, line: Line, rec: &[u8]) -> usize
    requires room { at + adds_long rest line ≤ length out.old }
    requires bounds { (rest < full) × (55 ≤ length rec.now) × LongWithin line }
    ensures { Put out.old at (adds rest (event_found rec.now line)) out.new result }
{
    match line {
        Line::Record { long } => {
            let a = rest_record(out, at, rest);
            list_lines::text(out, a, &rec[..long])
        }
        Line::Pause { slots } => fulls(out, at, (rest + slots as usize) / FULL),
    }
}

// The octets of a text that was judged good and fits: every line stands, up to the text's end.
fn lay(text: &[u8], out: &mut [u8])
    requires { IsOk (judged (length out.old) (stream text.now)) }
    ensures { out.new ≡ laid_by (stream text.now) out.old }
{
    let mut rec = [0u8; 55];
    let mut at = 0usize;
    let mut rest = 0usize;
    let mut p = 0usize;
    // No iterator of lines: each line says where the next one starts.
    while let Some((line, next)) = text_line::line_at(text, p, &mut rec) {
        at = put_line(out, at, rest, line, &rec);
        rest = leaves(rest, line);
        p = next;
    }
    rest_record(out, at, rest);
}

// Writes a text as a trace. Nothing is written unless all of it is good and fits.
pub fn write(text: &[u8], out: &mut [u8]) -> Result<usize, WriteError>
    ensures out_after { wrote result out.new ≡ write_text text.now out.old }
    ensures place_in_bounds { PlaceWithin (length text.now) result }
{
    let long = judge(text, out.len())?;
    lay(text, out);
    Ok(long)
}
