// Mending a damaged trace: from a place to the next, over a kept record or a skipped stretch.
#![tactic(auto)]

ghost use Rattle.std.specs.Prelude.{◌≡◌};
ghost use Rattle.mend_step.specs.Salvage.{meets_rule, resume, step_at, taken_at};

use trace_record::{Found, Mark, event_at};

// A record is kept or a stretch skipped, and the walk goes on at `next`.
#[derive(Clone, Copy)]
pub enum Stride {
    Kept { next: usize },
    Skipped { next: usize },
}

// Whether a salvage resumes at q: a whole readable record, directly followed by a known mark or the end of the input.
// No `Reader`: `Salvage.meets_rule` asks of any place, and a reader would be made for that one alone.
fn meets_rule(trace: &[u8], total: usize, q: usize) -> bool
    ensures { result ≡ meets_rule trace.now total q }
{
    let Found::Read { event: _, next } = event_at(trace, q) else {
        return false;
    };
    next == total || Mark::at(trace, next).is_some()
}

// The least place after p that meets the rule, or the input's end: each place is tried once.
// No `Reader`, which stays where nothing can be read: `Salvage.resume` tries every place.
fn resume_after(trace: &[u8], total: usize, p: usize) -> usize
    ensures { result ≡ resume trace.now total p }
{
    let long = trace.len();
    if long <= p {
        return total;
    }
    for q in p + 1..long {
        if meets_rule(trace, total, q) {
            return q;
        }
    }
    total
}

// One piece of an input of `total` octets, of which `trace` is all or the front, for every trace, total and place: the
// record that stands there, or the stretch that is skipped.
pub fn step(trace: &[u8], total: usize, at: usize) -> Stride
    ensures { result ≡ step_at trace.now total at }
{
    match event_at(trace, at) {
        Found::Read { event: _, next } => Stride::Kept { next },
        _ => Stride::Skipped {
            next: resume_after(trace, total, at),
        },
    }
}

// One step: at or past the input's end nothing is taken.
// No `Reader`, which doesn't go on over a stretch: `Salvage.taken_at` is of every trace, total and place.
pub fn take_piece(trace: &[u8], total: usize, at: usize) -> Option<Stride>
    ensures { result ≡ taken_at trace.now total at }
{
    if total <= at {
        None
    } else {
        Some(step(trace, total, at))
    }
}
