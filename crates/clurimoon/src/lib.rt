// The library as C sees it: each export hands its arguments on to the call behind it and promises the same. A slice
// passes as a pointer and a length, a struct by value. include/clurimoon.h declares them.
#![tactic(auto)]

ghost use Rattle.std.specs.Prelude.{◌≡◌, length};
ghost use Rattle.meaning.specs.Header.{by_vci, by_vpi};
ghost use Rattle.meaning.specs.Words.{second_of, without_second};
ghost use Rattle.meaning.specs.Calls.{zeros, asked_of};
ghost use Rattle.meaning.specs.Next.{wait_for};
ghost use Rattle.meaning.specs.Promises.{setup_promise, open_promise, close_promise, slot_promise, AuditPromise};
ghost use Rattle.meaning.specs.Lent.{before, seen, after, set_up_after, served_after};
ghost use Rattle.call_burst.specs.Promise.{burst_promise};
ghost use Rattle.call_time.specs.Schedule.{timed};
ghost use Rattle.call_tally.specs.Tally.{tally_slot, percentile_of};
ghost use Rattle.call_tallied.specs.Promise.{tallied_promise};
ghost use Rattle.clurimoon.specs.Places.{place_promise};

use call_burst::BurstEnd;
use call_connection::{NO_SECOND, Name, Peak, Second};
use call_line::Place;
use call_tallied::BurstTallied;
use call_tally::{Bin, Tallied, Tally};
use call_time::{Tat, Timed};
use leaf_refusal::given_number;
use meaning::{Fresh, Record, Served, Wait};

#[unsafe(no_mangle)]
pub extern "C" fn clurimoon_setup(
    n: u16,
    v: u16,
    raw: bool,
    kind: u16,
    splitvci: u16,
    splitpath: u16,
    cells: &mut [u8],
    links: &mut [u16],
    calendar: &mut [u16],
    words: &mut [u32],
    bits: &mut [u64],
    arrived: &mut [u32],
) -> Fresh
    ensures { setup_promise n v (asked_of raw kind splitvci splitpath) (before zeros cells links calendar words bits arrived) (set_up_after result cells links calendar words bits arrived) }
{
    call_setup::setup(
        n, v, raw, kind, splitvci, splitpath, cells, links, calendar, words, bits, arrived,
    )
}

#[unsafe(no_mangle)]
pub extern "C" fn clurimoon_open(
    ctl: Record,
    words: &mut [u32],
    owner: u16,
    vci: u16,
    m: u8,
    f: u32,
    c: u32,
) -> u16
    ensures { open_promise ctl words.old owner (by_vci vci) m f c without_second result words.new }
{
    let peak = Peak { m, f, c };
    given_number(call_connection::open(ctl, words, owner, Name::Vc(vci), peak, NO_SECOND))
}

#[unsafe(no_mangle)]
pub extern "C" fn clurimoon_open_sustained(
    ctl: Record,
    words: &mut [u32],
    owner: u16,
    vci: u16,
    m: u8,
    f: u32,
    c: u32,
    m2: u8,
    f2: u32,
    c2: u32,
    tag: u8,
) -> u16
    ensures { open_promise ctl words.old owner (by_vci vci) m f c (second_of m2 f2 c2 tag) result words.new }
{
    let peak = Peak { m, f, c };
    let second = Second {
        m: m2,
        f: f2,
        c: c2,
        tag,
    };
    given_number(call_connection::open(ctl, words, owner, Name::Vc(vci), peak, second))
}

#[unsafe(no_mangle)]
pub extern "C" fn clurimoon_close(ctl: Record, words: &mut [u32], owner: u16, vci: u16) -> u16
    ensures { close_promise ctl words.old owner (by_vci vci) result words.new }
{
    given_number(call_connection::close(ctl, words, owner, Name::Vc(vci)))
}

// A whole path, by its VPI, with a second bucket or none.
#[unsafe(no_mangle)]
pub extern "C" fn clurimoon_open_path(
    ctl: Record,
    words: &mut [u32],
    owner: u16,
    vpi: u16,
    m: u8,
    f: u32,
    c: u32,
    m2: u8,
    f2: u32,
    c2: u32,
    tag: u8,
) -> u16
    ensures { open_promise ctl words.old owner (by_vpi vpi) m f c (second_of m2 f2 c2 tag) result words.new }
{
    let peak = Peak { m, f, c };
    let second = Second {
        m: m2,
        f: f2,
        c: c2,
        tag,
    };
    given_number(call_connection::open(ctl, words, owner, Name::Path(vpi), peak, second))
}

#[unsafe(no_mangle)]
pub extern "C" fn clurimoon_close_path(ctl: Record, words: &mut [u32], owner: u16, vpi: u16) -> u16
    ensures { close_promise ctl words.old owner (by_vpi vpi) result words.new }
{
    given_number(call_connection::close(ctl, words, owner, Name::Path(vpi)))
}

#[unsafe(no_mangle)]
pub extern "C" fn clurimoon_slot(
    ctl: Record,
    cells: &mut [u8],
    links: &mut [u16],
    calendar: &mut [u16],
    words: &mut [u32],
    bits: &mut [u64],
    arrived: &mut [u32],
    cell: &[u8],
) -> Served
    ensures { slot_promise (before ctl cells links calendar words bits arrived) cell.now (served_after result cells links calendar words bits arrived) }
{
    call_slot::slot(ctl, cells, links, calendar, words, bits, arrived, cell)
}

// No slice can be handed back to C: the answer says where the line's part lies.
#[unsafe(no_mangle)]
pub extern "C" fn clurimoon_line(cells: &[u8], idle: &[u8], number: u16) -> Place
    ensures { place_promise cells.now idle.now number result }
{
    call_line::line_part(cells.len(), idle.len(), number)
}

#[unsafe(no_mangle)]
pub extern "C" fn clurimoon_audit(
    ctl: Record,
    cells: &[u8],
    links: &[u16],
    calendar: &[u16],
    words: &[u32],
    bits: &[u64],
    arrived: &[u32],
) -> bool
    ensures { AuditPromise (seen ctl cells links calendar words bits arrived) result }
{
    call_audit::audit(ctl, cells, links, calendar, words, bits, arrived)
}

#[unsafe(no_mangle)]
pub extern "C" fn clurimoon_burst(
    ctl: Record,
    cells: &mut [u8],
    links: &mut [u16],
    calendar: &mut [u16],
    words: &mut [u32],
    bits: &mut [u64],
    arrived: &mut [u32],
    arrivals: &[u8],
    sizes: &[u8],
    departures: &mut [u8],
    answers: &mut [u16],
) -> BurstEnd
    ensures { burst_promise (before ctl cells links calendar words bits arrived) arrivals sizes departures answers result (after result.ctl cells links calendar words bits arrived) }
{
    call_burst::burst(
        ctl, cells, links, calendar, words, bits, arrived, arrivals, sizes, departures, answers,
    )
}

// How long until something leaves: nothing is written.
#[unsafe(no_mangle)]
pub extern "C" fn clurimoon_next(ctl: Record, calendar: &[u16], bits: &[u64]) -> Wait
    ensures { result ≡ wait_for ctl calendar.now bits.now }
{
    call_next::next(ctl, calendar, bits)
}

// The generator's own rule: it stands beside the policer and needs none of its memory.
#[unsafe(no_mangle)]
pub extern "C" fn clurimoon_time(state: Tat, n: u16, m: u8, f: u32, c: u32, arrival: u64) -> Timed
    ensures { result ≡ timed state n m f c arrival }
{
    call_time::time(state, n, m, f, c, arrival)
}

// After a slot: the delay summary of one connection, handed what the slot answered. Of the policer nothing is written.
#[unsafe(no_mangle)]
pub extern "C" fn clurimoon_tally_slot(
    tally: Tally,
    ctl: Record,
    arrived: &[u32],
    connection: u16,
    space: u16,
    departing: u16,
) -> Tallied
    ensures { result ≡ tally_slot tally ctl arrived.now connection space departing }
{
    call_tally::tally_slot(tally, ctl, arrived, connection, space, departing)
}

// The share is in thousandths.
#[unsafe(no_mangle)]
pub extern "C" fn clurimoon_percentile(tally: Tally, share: u16) -> Bin
    ensures { result ≡ percentile_of tally share }
{
    call_tally::percentile(tally, share)
}

// A burst in place of another, for a card that wants one connection's delays: within a burst a space may be taken again, and its
// arrival slot with it.
#[unsafe(no_mangle)]
pub extern "C" fn clurimoon_burst_tallied(
    tally: Tally,
    connection: u16,
    ctl: Record,
    cells: &mut [u8],
    links: &mut [u16],
    calendar: &mut [u16],
    words: &mut [u32],
    bits: &mut [u64],
    arrived: &mut [u32],
    arrivals: &[u8],
    sizes: &[u8],
    departures: &mut [u8],
    answers: &mut [u16],
) -> BurstTallied
    ensures { tallied_promise tally connection (before ctl cells links calendar words bits arrived) arrivals sizes departures answers result
        (after result.end.ctl cells links calendar words bits arrived) }
{
    call_tallied::burst_tallied(
        tally, connection, ctl, cells, links, calendar, words, bits, arrived, arrivals, sizes,
        departures, answers,
    )
}
