// A slot in which a cell is accepted: its seat, then steps 4 and 5, are read and judged, then all is written.
// A refusal is a Served with its number: a `Result` of Served was tried, costs a slot more, and goes through memory once more.
// So r, the record as it came, goes beside k, in which the clock has moved: a refusal gives it back.
#![tactic(auto)]

ghost use Rattle.std.specs.Prelude.{◌≡◌, true, ◌-◌, ◌*◌, ◌≤◌, ◌<◌, length};
ghost use Rattle.meaning.specs.Plain.{◌and_then◌, when◌then◌else◌};
ghost use Rattle.meaning.specs.Numbers.{most_n, per_entry, bit_words};
ghost use Rattle.meaning.specs.Bits.{given, unmarked};
ghost use Rattle.meaning.specs.Lists.{empty_list, ends_fit, write_entry};
ghost use Rattle.meaning.specs.Work.{answer_of};
ghost use Rattle.meaning.specs.Slot.{step4, step5};
ghost use Rattle.meaning.specs.Lent.{here, before, Gives};
ghost use Rattle.slot_arrive.specs.Arrival.{one_less};
ghost use Rattle.mem_lists.specs.Spaces.{ends_of, linked};
ghost use Rattle.slot_plan.specs.Plan.{with_ends, seat_now};
ghost use Rattle.slot_plan.specs.Works.{seating_of, accept_of, last_steps};
ghost use Rattle.slot_plan.specs.Facts.{Sized, Accepted, Seated};
ghost use Rattle.slot_accept.specs.Going.{MayLeave};

mod departure;

use leaf_refusal::Refusal;
use meaning::{Answer, Record, Served};
use mem_lists::{Off, Seat};
use slot_arrive::{Fall, Judged};

// The departure of o, once the cell is stored: one space is taken and one given back, so their number is as it came.
fn leave(
    k: Record,
    j: Judged,
    o: Off,
    joins: bool,
    from: u16,
    clears: bool,
    links: &mut [u16],
    calendar: &mut [u16],
    words: &mut [u32],
    bits: &mut [u64],
) -> Served
    requires { MayLeave k o joins clears links calendar words bits }
    ensures links { links.new ≡ linked joins k.outtail from links.old }
    ensures calendar { calendar.new ≡ (when clears then write_entry calendar.old k.turn empty_list else calendar.old) }
    ensures words { words.new ≡ one_less o.vci words.old }
    ensures bits { bits.new ≡ given (when clears then unmarked bits.old k.turn else bits.old) o.space }
    ensures served { (result.ctl ≡ with_ends k k.free (ends_of o.head o.tail)) × (result.answer ≡ answer_of 0 j.verdict j.vci j.d o.space o.vci) }
{
    slot_arrive::put_less(words, o.vci);
    slot_depart::clear_entry(calendar, clears, k.turn);
    mem_lists::put_link(links, joins, k.outtail, from);
    mem_bits::release(bits, o.space, clears, k.turn);
    slot_depart::left(k, k.free, j.verdict, j.vci, j.d, o)
}

// Nothing departs.
fn stay(k: Record, j: Judged) -> Served
    requires { 1 ≤ k.free }
    ensures { (result.ctl ≡ with_ends k (k.free - 1) (ends_of k.outhead k.outtail)) × (result.answer ≡ answer_of 0 j.verdict j.vci j.d 65535 0) }
{
    let ctl = slot_store::seated(k);
    Served {
        ctl: ctl,
        answer: Answer {
            number: 0,
            verdict: j.verdict,
            vci: j.vci,
            d: j.d,
            space: 65535,
            departing: 0,
        },
    }
}

// An accepted cell that has its seat: what departs is found first; then the cell is stored, at one place for all cases, so that this is
// laid in place.
fn accept_seated(
    r: Record,
    k: Record,
    b: Option<Fall>,
    j: Judged,
    a: Seat,
    cells: &mut [u8],
    links: &mut [u16],
    calendar: &mut [u16],
    words: &mut [u32],
    bits: &mut [u64],
    arrived: &mut [u32],
    cell: &[u8],
) -> Served
    requires sized { Sized (here k cells links calendar words bits arrived) }
    requires accepted { Accepted k j cell.now words.old }
    requires seated { Seated k a bits.old }
    requires outtail_value { ends_fit k.n (ends_of k.outhead k.outtail) ≡ true }
    ensures { Gives r (last_steps (accept_of (before k cells links calendar words bits arrived) b j a cell.now)) result cells links calendar words bits arrived }
{
    let Some(departs) = departure::going(k, j, a, cells, links, calendar, words, bits) else {
        return slot_depart::refuse_for(r, Refusal::Stored);
    };
    slot_store::store(
        k, b, j, a, cells, links, calendar, words, bits, arrived, cell,
    );
    let Some(g) = departs else {
        return stay(k, j);
    };
    leave(
        k, j, g.off, g.joins, g.from, g.clears, links, calendar, words, bits,
    )
}

// Where a cell with delay d goes: it takes the lowest free space, once the words of free spaces fit and have one.
fn seat_now(k: Record, d: u16, calendar: &[u16], bits: &[u64]) -> Option<Seat>
    requires n_le_most_n { (k.n ≤ most_n) × (k.turn < k.n) × (d < k.n) }
    requires calendar_len { (length calendar.now ≡ per_entry * k.n) × (length bits.now ≡ bit_words) }
    ensures { result ≡ seat_now k d calendar.now bits.now }
{
    if k.free != 0 {
        if mem_bits::fits(k.n, k.free, bits) {
            let x = mem_bits::lowest(bits);
            return mem_lists::seat_for(k.n, calendar, k.turn, d, x);
        }
    }
    None
}

// A cell was judged, and is let in.
// The Output List's ends are tested one after the other, as slot_quiet::quiet_unmarked does, and for the same reason.
pub fn accept(
    r: Record,
    k: Record,
    b: Option<Fall>,
    j: Judged,
    cells: &mut [u8],
    links: &mut [u16],
    calendar: &mut [u16],
    words: &mut [u32],
    bits: &mut [u64],
    arrived: &mut [u32],
    cell: &[u8],
) -> Served
    requires sized { Sized (here k cells links calendar words bits arrived) }
    requires accepted { Accepted k j cell.now words.old }
    ensures { Gives r (seating_of (before k cells links calendar words bits arrived) b j cell.now and_then step4 and_then step5) result cells links calendar words bits arrived }
{
    let Some(a) = seat_now(k, j.d, calendar, bits) else {
        return slot_depart::refuse_for(r, Refusal::Stored);
    };
    if k.outhead == 65535 {
        if k.outtail != 65535 {
            return slot_depart::refuse_for(r, Refusal::Stored);
        }
    } else {
        if k.outhead >= k.n {
            return slot_depart::refuse_for(r, Refusal::Stored);
        }
        if k.outtail >= k.n {
            return slot_depart::refuse_for(r, Refusal::Stored);
        }
    }
    accept_seated(
        r, k, b, j, a, cells, links, calendar, words, bits, arrived, cell,
    )
}
