// A connection's opening and closing in a run, a VC's or a path's, each with its line; the run then stands at the next record.
// Run, buffer and place stay apart, as `DidWords` has them: a struct with the buffer in it adds two clauses (see `list_lines`).
ghost use Rattle.std.specs.Prelude.{◌≡◌, ◌+◌, ◌≤◌, false, length};
ghost use Rattle.meaning.specs.Header.{number_in};
ghost use Rattle.call_connection.specs.Names.{name_of};
ghost use Rattle.call_connection.specs.Rates.{second_in};
ghost use Rattle.list_meaning.specs.Trace.{open_connection, close_connection};
ghost use Rattle.list_whole.specs.Run.{World, onward, called};
ghost use Rattle.list_whole.specs.Fill.{room};
ghost use Rattle.list_whole.specs.Lent.{DidWords};

use call_connection::{Name, Peak, Second};
use list_whole::{Filled, Run};

// The run at another record, with so many slots of a pause before it.
pub(crate) fn moved(run: Run, at: u32, left: u16) -> Run
    ensures { result ≡ onward run.ctl at left run.done run.tally }
{
    Run { at, left, ..run }
}

// The number that a connection is listed with: a VC's VCI; a path's V + VPI, also where it names none.
#[tactic(auto, unfolding(meaning::specs::Header::number_in))]
fn listed_number(v: u16, name: Name) -> u32
    ensures { result ≡ number_in v (name_of name) }
{
    match name {
        Name::Vc(vci) => u32::from(vci),
        Name::Path(vpi) => u32::from(v) + u32::from(vpi),
    }
}

// An opening with its line. No mark opens a path with a second bucket.
pub(crate) fn open_connection(
    run: Run,
    name: Name,
    peak: Peak,
    second: Second,
    next: u32,
    words: &mut [u32],
    out: &mut [u8],
    used: usize,
) -> Filled
    requires { (used + room ≤ length out.old) × (run.done ≡ false) }
    ensures { DidWords (λ (w : World). called w (open_connection (name_of name) peak.m peak.f peak.c (second_in second)) next 0) room run words out used result }
{
    let number = listed_number(run.ctl.v, name);
    // 1 is the second operator: `call_connection::open` takes the number that C gives
    let opened = call_connection::open(run.ctl, words, 1, name, peak, second);
    let line = list_lines::open_line(out, used, number, leaf_refusal::given_number(opened));
    Filled {
        run: moved(run, next, 0),
        used: line,
    }
}

// A closing with its line.
pub(crate) fn close_connection(
    run: Run,
    name: Name,
    next: u32,
    words: &mut [u32],
    out: &mut [u8],
    used: usize,
) -> Filled
    requires { (used + room ≤ length out.old) × (run.done ≡ false) }
    ensures { DidWords (λ (w : World). called w (close_connection (name_of name)) next 0) room run words out used result }
{
    let number = listed_number(run.ctl.v, name);
    // 1 is the second operator: `call_connection::close` takes the number that C gives
    let closed = call_connection::close(run.ctl, words, 1, name);
    let line = list_lines::close_line(out, used, number, leaf_refusal::given_number(closed));
    Filled {
        run: moved(run, next, 0),
        used: line,
    }
}
