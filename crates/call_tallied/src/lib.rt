// A burst that tallies the delays of one connection: slot after slot in one call, and after each served slot the tally takes what it
// answered. Its bins are added up once, before the first slot.
#![tactic(auto)]

ghost use Rattle.std.specs.Prelude.{◌≡◌, not, ◌<◌, length, get_or};
ghost use Rattle.meaning.specs.Lent.{before, after};
ghost use Rattle.leaf_refusal.specs.Order.{refuse_of, first_of};
ghost use Rattle.leaf_refusal.specs.Refusals.{given_number};
ghost use Rattle.call_burst.specs.Burst.{one_slot, lengths_fit};
ghost use Rattle.call_burst.specs.Promise.{SlotLent, BurstLent};
ghost use Rattle.call_burst.specs.Way.{Shaped, stretch_before, stretch_after};
ghost use Rattle.call_tally.specs.Tally.{standing};
ghost use Rattle.call_tallied.specs.Tallied.{tallying_of, one_tallied, slots_tallied};
ghost use Rattle.call_tallied.specs.Promise.{tallied_promise};

use call_burst::BurstEnd;
use call_tally::Tally;
use leaf_refusal::{Refusal, refuse_unless};
use meaning::Record;

// What such a burst gives back: how the burst ended, and the tally.
#[repr(C)]
#[derive(Clone, Copy)]
pub struct BurstTallied {
    pub end: BurstEnd,
    pub tally: Tally,
}

// Slot i of a burst: a burst of one slot, lent the slot's own octets and numbers.
fn one_slot(
    ctl: Record,
    cells: &mut [u8],
    links: &mut [u16],
    calendar: &mut [u16],
    words: &mut [u32],
    bits: &mut [u64],
    arrived: &mut [u32],
    arrivals: &[u8],
    sizes: &[u8],
    departures: &mut [u8],
    answers: &mut [u16],
    i: usize,
) -> BurstEnd
    requires slot_lent { SlotLent arrivals.now departures.old answers.old i }
    requires shaped { Shaped ctl cells.old links.old calendar.old words.old bits.old arrived.old }
    requires i_in_bounds { i < length sizes.now }
    ensures { stretch_after (after result.ctl cells links calendar words bits arrived) departures answers result.number result.done
        ≡ one_slot arrivals.now (get_or sizes.now i 0) (stretch_before (before ctl cells links calendar words bits arrived) departures answers i) }
{
    let j = i + 1;
    let a = 53 * i;
    let e = a + 53;
    let p = 6 * i;
    let q = p + 6;
    let one = call_burst::burst(
        ctl,
        cells,
        links,
        calendar,
        words,
        bits,
        arrived,
        &arrivals[a..e],
        &sizes[i..j],
        &mut departures[a..e],
        &mut answers[p..q],
    );
    BurstEnd {
        done: i + one.done,
        ..one
    }
}

// Slot i, and the tally after it: where it was served, it takes what the slot answered.
// How the slot ended is told by a number, 0 where it was served: call_burst::burst answers `BurstEnd`, which is C's struct.
fn one_tallied(
    tally: &mut Tally,
    connection: u16,
    ctl: Record,
    cells: &mut [u8],
    links: &mut [u16],
    calendar: &mut [u16],
    words: &mut [u32],
    bits: &mut [u64],
    arrived: &mut [u32],
    arrivals: &[u8],
    sizes: &[u8],
    departures: &mut [u8],
    answers: &mut [u16],
    i: usize,
) -> BurstEnd
    requires slot_lent { SlotLent arrivals.now departures.old answers.old i }
    requires shaped { Shaped ctl cells.old links.old calendar.old words.old bits.old arrived.old }
    requires i_in_bounds { i < length sizes.now }
    requires stands { standing tally.old.bins tally.old.cells ctl (length arrived.old) connection ≡ 0 }
    ensures { tallying_of (stretch_after (after result.ctl cells links calendar words bits arrived) departures answers result.number result.done) tally.new
        ≡ one_tallied arrivals.now connection (get_or sizes.now i 0)
        (tallying_of (stretch_before (before ctl cells links calendar words bits arrived) departures answers i) tally.old) }
{
    let end = one_slot(
        ctl, cells, links, calendar, words, bits, arrived, arrivals, sizes, departures, answers, i,
    );
    if end.number != 0 {
        return end;
    }
    let at = 6 * i;
    call_tally::take_departure(
        tally,
        end.ctl,
        arrived,
        connection,
        answers[at + 4],
        answers[at + 5],
    );
    end
}

// All slots of a burst that was not refused, one by one. (A contract doesn't know by itself that a lent tally has 64 bins.)
// A slot that was not served ends it by the number of its `BurstEnd`, which is C's struct and no `Result`.
fn run(
    tally: &mut Tally,
    connection: u16,
    ctl: Record,
    cells: &mut [u8],
    links: &mut [u16],
    calendar: &mut [u16],
    words: &mut [u32],
    bits: &mut [u64],
    arrived: &mut [u32],
    arrivals: &[u8],
    sizes: &[u8],
    departures: &mut [u8],
    answers: &mut [u16],
) -> BurstEnd
    requires burst_lent { BurstLent arrivals.now sizes.now departures.old answers.old }
    requires shaped { Shaped ctl cells.old links.old calendar.old words.old bits.old arrived.old }
    requires bins_long { length tally.old.bins ≡ 64 }
    requires stands { standing tally.old.bins tally.old.cells ctl (length arrived.old) connection ≡ 0 }
    ensures { tallying_of (stretch_after (after result.ctl cells links calendar words bits arrived) departures answers result.number result.done) tally.new
        ≡ slots_tallied arrivals.now connection sizes.now
        (tallying_of (stretch_before (before ctl cells links calendar words bits arrived) departures answers 0) tally.old) }
{
    let mut last = ctl;
    for i in 0..sizes.len() {
        let end = one_tallied(
            tally, connection, last, cells, links, calendar, words, bits, arrived, arrivals, sizes,
            departures, answers, i,
        );
        if end.number != 0 {
            return end;
        }
        last = end.ctl;
    }
    BurstEnd {
        ctl: last,
        number: 0,
        done: sizes.len(),
    }
}

// The tally's refusals, 1, 2, 4 and 3, then the burst's own 2.
fn judge(
    tally: &Tally,
    connection: u16,
    ctl: Record,
    cells: usize,
    links: usize,
    calendar: usize,
    words: usize,
    bits: usize,
    arrived: usize,
    arrivals: usize,
    sizes: usize,
    departures: usize,
    answers: usize,
) -> Result<(), Refusal>
    ensures { given_number result ≡ first_of (standing tally.now.bins tally.now.cells ctl arrived connection)
        (refuse_of 2 (not (lengths_fit ctl.n ctl.v cells links calendar words bits arrived arrivals sizes departures answers))) }
{
    let fit = call_burst::lengths_fit(
        ctl, cells, links, calendar, words, bits, arrived, arrivals, sizes, departures, answers,
    );
    call_tally::standing_refusal(tally, ctl, arrived, connection)?;
    refuse_unless(fit, Refusal::Lengths)
}

// A burst in place of another, where one connection's delays are wanted. The tally comes first and comes back; the rest is the burst's.
pub fn burst_tallied(
    tally: Tally,
    connection: u16,
    ctl: Record,
    cells: &mut [u8],
    links: &mut [u16],
    calendar: &mut [u16],
    words: &mut [u32],
    bits: &mut [u64],
    arrived: &mut [u32],
    arrivals: &[u8],
    sizes: &[u8],
    departures: &mut [u8],
    answers: &mut [u16],
) -> BurstTallied
    ensures { tallied_promise tally connection (before ctl cells links calendar words bits arrived) arrivals sizes departures answers result
        (after result.end.ctl cells links calendar words bits arrived) }
{
    let judged = judge(
        &tally,
        connection,
        ctl,
        cells.len(),
        links.len(),
        calendar.len(),
        words.len(),
        bits.len(),
        arrived.len(),
        arrivals.len(),
        sizes.len(),
        departures.len(),
        answers.len(),
    );
    if let Err(why) = judged {
        return BurstTallied {
            end: BurstEnd {
                ctl,
                number: u16::from(why),
                done: 0,
            },
            tally,
        };
    }
    let mut taken = tally;
    let end = run(
        &mut taken, connection, ctl, cells, links, calendar, words, bits, arrived, arrivals, sizes,
        departures, answers,
    );
    BurstTallied { end, tally: taken }
}
