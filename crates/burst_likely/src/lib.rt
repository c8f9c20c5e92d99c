// A slot on a likely way: what was found of steps 2 to 5 is written, a case at a time, whatever the verdict. A test that fails
// leaves the likely way before anything is written, and the slot is then served as the call has it: nothing here refuses.
#![tactic(auto)]

ghost use Rattle.std.specs.Prelude.{◌≡◌, true, false, not, ◌⊎◌, ◌+◌, ◌-◌, ◌*◌, ◌≤◌, ◌<◌, IfSome, IfNone, length, get_or, set, take, drop};
ghost use Rattle.meaning.specs.Plain.{when◌then◌else◌, ◌=?◌};
ghost use Rattle.meaning.specs.Numbers.{most_n, most_v, connections_in, empty, excess, octets, cell_start, words_in};
ghost use Rattle.meaning.specs.Bits.{taken, given, marked, unmarked};
ghost use Rattle.meaning.specs.State.{write_cell, HasConnection};
ghost use Rattle.meaning.specs.Header.{header_at, clp_in};
ghost use Rattle.meaning.specs.Lists.{empty_list, entry_at, ends_fit, write_entry};
ghost use Rattle.meaning.specs.Arrival.{sent_as};
ghost use Rattle.meaning.specs.Work.{answer_of};
ghost use Rattle.leaf_header.specs.Name.{no_name, Reads};
ghost use Rattle.slot_arrive.specs.Arrival.{one_less, judged_name};
ghost use Rattle.mem_lists.specs.Spaces.{ends_of, linked};
ghost use Rattle.slot_plan.specs.Plan.{seat_ends, rotated};
ghost use Rattle.burst_out.specs.Handout.{write_answer};
ghost use Rattle.burst_way.specs.Way.{slot_record, NamesBy};
ghost use Rattle.burst_arrive.specs.Arriving.{seat_at};
ghost use Rattle.burst_depart.specs.Leaving.{Goes, OffHere, Regular, RegularThen};
ghost use Rattle.burst_likely.specs.Served.{HandedTo, ReadyIn, SpottedIn, MayLeave, CleanIn, likely_name, cell_before, words_fallen, words_filled};
ghost use Rattle.burst_likely.specs.Served.{followed, Keeps, from_here, quiet_from, accept_from, ServedBy, ServedOrLeft, QuietServedOrLeft};

use burst_arrive::Spot;
use burst_depart::Leave;
use burst_way::Way;
use meaning::Answer;
use slot_arrive::{Fall, Judged};

// A slot served on a likely way. Of the policer only these three differ then: handed on as a whole it would be moved field by field in
// each slot.
#[derive(Clone, Copy)]
pub struct Went {
    pub free: usize,
    pub outhead: usize,
    pub outtail: usize,
}

// The cell's entry: at the head, and at the tail where it was empty. Where it was not its tail is not written: one store fewer than
// mem_lists::put_entry.
fn put_entry(calendar: &mut [u16], e: usize, x: usize, head: usize)
    requires { (2 * e + 2 ≤ length calendar.old) × (x ≤ 65535) × (head ≡ get_or calendar.old (2 * e) 0) }
    ensures { calendar.new
        ≡ write_entry calendar.old e (ends_of x (when head =? empty then x else get_or calendar.old (2 * e + 1) 0)) }
{
    calendar[2 * e] = x as u16;
    if head == 65535 {
        calendar[2 * e + 1] = x as u16;
    }
}

// Slot i's cell into its space, as it is sent.
fn put_cell(verdict: u16, cells: &mut [u8], x: usize, arrivals: &[u8], i: usize)
    requires { (x < most_n) × (cell_start x + octets ≤ length cells.old) × (cell_start i + octets ≤ length arrivals.now) }
    ensures { cells.new ≡ write_cell cells.old x (sent_as verdict (cell_before arrivals i)) }
{
    let from = 53 * i;
    let to = from + 53;
    slot_store::put_sent(verdict, cells, x as u16, &arrivals[from..to]);
}

// Step 2 in the words. Laid in place in both that call it.
#[inline(always)]
fn words_turned(w: Way, b: Option<Fall>, words: &mut [u32])
    requires { (w.rotation < connections_in most_v) × (HasConnection w.rotation words.old) }
    ensures { words.new ≡ rotated (slot_record w) b words.old }
{
    if let Some(f) = b {
        slot_arrive::put_fallen(words, w.rotation as u16, f.s, f.second, w.t);
    }
}

// Steps 2 and 3 in the words where no cell is let in.
fn words_fall(w: Way, b: Option<Fall>, j: Judged, words: &mut [u32])
    requires { (w.rotation < connections_in most_v) × (HasConnection w.rotation words.old) × (j.verdict =? excess ≡ true → HasConnection j.vci words.old) }
    ensures { words.new ≡ words_fallen w b j words.old }
{
    words_turned(w, b, words);
    slot_arrive::put_fall(words, j.verdict == 2, j.vci, j.s, j.second, w.t);
}

// No cell is let in, and nothing departs.
fn quiet_none(w: Way, b: Option<Fall>, j: Judged, words: &mut [u32], answers: &mut [u16], i: usize)
    requires rotation_bound { (w.rotation < connections_in most_v) × (HasConnection w.rotation words.old) × (j.verdict =? excess ≡ true → HasConnection j.vci words.old) }
    requires i_in_bounds { 6 * i + 6 ≤ length answers.old }
    ensures words { words.new ≡ words_fallen w b j words.old }
    ensures answers { answers.new ≡ write_answer answers.old i (answer_of 0 j.verdict j.vci 0 65535 0) }
{
    words_fall(w, b, j, words);
    burst_out::put_answer(
        answers,
        i,
        Answer {
            number: 0,
            verdict: j.verdict,
            vci: j.vci,
            d: 0,
            space: 65535,
            departing: 0,
        },
    );
}

// What is written where o departs, d being the delay of the cell that was let in, or 0. Laid in place in both cases that call it.
#[inline(always)]
fn leave(
    w: Way,
    j: Judged,
    d: u16,
    o: Leave,
    cells: &[u8],
    links: &mut [u16],
    calendar: &mut [u16],
    words: &mut [u32],
    bits: &mut [u64],
    departures: &mut [u8],
    answers: &mut [u16],
    i: usize,
)
    requires may_leave { MayLeave w o cells links calendar words bits }
    requires handed_to { HandedTo departures.old answers.old i }
    ensures links { links.new ≡ followed o.follows w.outtail links.old }
    ensures calendar { calendar.new ≡ (when o.marked then write_entry calendar.old w.turn empty_list else calendar.old) }
    ensures words { words.new ≡ one_less o.vci words.old }
    ensures bits { bits.new ≡ given (when o.marked then unmarked bits.old w.turn else bits.old) o.space }
    ensures shown { departures.new ≡ write_cell departures.old i (take 53 (drop (53 * o.space) cells.now)) }
    ensures told { answers.new ≡ write_answer answers.old i (answer_of 0 j.verdict j.vci d o.space o.vci) }
{
    slot_arrive::put_less(words, o.vci as u16);
    slot_depart::clear_entry(calendar, o.marked, w.turn as u16);
    if let Some(head) = o.follows {
        mem_lists::put_link(links, true, w.outtail as u16, head as u16);
    }
    mem_bits::release(bits, o.space as u16, o.marked, w.turn as u16);
    burst_out::copy_departure(departures, i, cells, o.space);
    burst_out::put_answer(
        answers,
        i,
        Answer {
            number: 0,
            verdict: j.verdict,
            vci: j.vci,
            d,
            space: o.space as u16,
            departing: o.vci as u16,
        },
    );
}

// No cell is let in, and o departs: all writes.
fn quiet_leave(
    w: Way,
    b: Option<Fall>,
    j: Judged,
    o: Leave,
    cells: &[u8],
    links: &mut [u16],
    calendar: &mut [u16],
    words: &mut [u32],
    bits: &mut [u64],
    arrived: &mut [u32],
    departures: &mut [u8],
    answers: &mut [u16],
    i: usize,
) -> Went
    requires ready_in { ReadyIn w cells.now links.old calendar.old words.old bits.old arrived.old }
    requires vci_bound { j.verdict =? excess ≡ true → j.vci < connections_in w.v }
    requires entry_fits { ends_fit w.n (entry_at calendar.old w.turn) ≡ true }
    requires goes { Goes (slot_record w) bits.old (entry_at calendar.old w.turn) o (OffHere (slot_record w) cells.now links.old words.old) }
    requires handed_to { HandedTo departures.old answers.old i }
    ensures { ServedBy w (quiet_from w b j cells links calendar words bits arrived) result cells links calendar words bits arrived departures answers i }
{
    words_fall(w, b, j, words);
    leave(
        w, j, 0, o, cells, links, calendar, words, bits, departures, answers, i,
    );
    Went {
        free: w.free + 1,
        outhead: o.next,
        outtail: o.tail,
    }
}

// No cell is let in: none arrived, or an idle one, one of no open connection, or one that is excess.
fn quiet(
    w: Way,
    b: Option<Fall>,
    j: Judged,
    cells: &[u8],
    links: &mut [u16],
    calendar: &mut [u16],
    words: &mut [u32],
    bits: &mut [u64],
    arrived: &mut [u32],
    departures: &mut [u8],
    answers: &mut [u16],
    i: usize,
) -> Option<Went>
    requires ready_in { ReadyIn w cells.now links.old calendar.old words.old bits.old arrived.old }
    requires vci_bound { j.verdict =? excess ≡ true → j.vci < connections_in w.v }
    requires handed_to { HandedTo departures.old answers.old i }
    ensures served { QuietServedOrLeft w (quiet_from w b j cells links calendar words bits arrived) result cells links calendar words bits arrived departures answers i }
    ensures kept { IfNone result (Regular (slot_record w) cells.now links.old words.old bits.old (entry_at calendar.old w.turn) → ⊥) }
{
    let Some(o) = burst_depart::off_quiet(w, cells, links, calendar, words, bits)? else {
        quiet_none(w, b, j, words, answers, i);
        return Some(Went {
            free: w.free,
            outhead: w.outhead,
            outtail: w.outtail,
        });
    };
    let went = quiet_leave(
        w, b, j, o, cells, links, calendar, words, bits, arrived, departures, answers, i,
    );
    Some(went)
}

// A cell that is let in: what steps 2 and 3 write; its space is free no longer, and its entry is marked. Called once, before it is
// known whether something departs: called in both cases it would not be laid in place.
fn store(
    w: Way,
    b: Option<Fall>,
    j: Judged,
    p: Spot,
    cells: &mut [u8],
    links: &mut [u16],
    calendar: &mut [u16],
    words: &mut [u32],
    bits: &mut [u64],
    arrived: &mut [u32],
    arrivals: &[u8],
    i: usize,
)
    requires ready_in { ReadyIn w cells.old links.old calendar.old words.old bits.old arrived.old }
    requires spotted_in { SpottedIn w j p calendar words bits arrivals i }
    requires octets_in_bounds { cell_start i + octets ≤ length arrivals.now }
    ensures cells { cells.new ≡ write_cell cells.old p.x (sent_as j.verdict (cell_before arrivals i)) }
    ensures links { links.new ≡ linked (not (p.head =? empty)) p.x p.head links.old }
    ensures calendar { calendar.new ≡ write_entry calendar.old p.e (seat_ends (seat_at p)) }
    ensures words { words.new ≡ words_filled w b j words.old }
    ensures bits { bits.new ≡ marked (taken bits.old p.x) p.e }
    ensures arrived { arrived.new ≡ set arrived.old p.x w.t }
{
    words_turned(w, b, words);
    slot_arrive::put_fill(words, j.vci, j.s, j.second, w.t, j.waiting);
    put_cell(j.verdict, cells, p.x, arrivals, i);
    arrived[p.x] = w.t;
    mem_lists::put_link(links, p.head != 65535, p.x as u16, p.head as u16);
    put_entry(calendar, p.e, p.x, p.head);
    mem_bits::occupy(bits, p.x as u16, p.e as u16);
}

// A cell is let in: accepted, or tagged.
fn accept(
    w: Way,
    b: Option<Fall>,
    j: Judged,
    p: Spot,
    cells: &mut [u8],
    links: &mut [u16],
    calendar: &mut [u16],
    words: &mut [u32],
    bits: &mut [u64],
    arrived: &mut [u32],
    arrivals: &[u8],
    departures: &mut [u8],
    answers: &mut [u16],
    i: usize,
) -> Option<Went>
    requires ready_in { ReadyIn w cells.old links.old calendar.old words.old bits.old arrived.old }
    requires spotted_in { SpottedIn w j p calendar words bits arrivals i }
    requires octets_in_bounds { (cell_start i + octets ≤ length arrivals.now) × HandedTo departures.old answers.old i }
    ensures served { ServedOrLeft w (accept_from w b j p (cell_before arrivals i) cells links calendar words bits arrived)
        result cells links calendar words bits arrived departures answers i }
    ensures kept { IfNone result (RegularThen (slot_record w) p cells.old links.old calendar.old words.old bits.old → ⊥) }
{
    let leaves = burst_depart::off_accept(w, p, cells, links, calendar, words, bits)?;
    store(
        w, b, j, p, cells, links, calendar, words, bits, arrived, arrivals, i,
    );
    let Some(o) = leaves else {
        burst_out::put_answer(
            answers,
            i,
            Answer {
                number: 0,
                verdict: j.verdict,
                vci: j.vci,
                d: j.d,
                space: 65535,
                departing: 0,
            },
        );
        return Some(Went {
            free: w.free - 1,
            outhead: w.outhead,
            outtail: w.outtail,
        });
    };
    // one space is taken and one given back, so their number stays
    leave(
        w, j, j.d, o, cells, links, calendar, words, bits, departures, answers, i,
    );
    Some(Went {
        free: w.free,
        outhead: o.next,
        outtail: o.tail,
    })
}

// The name of slot i's cell: 0 where there is none, and none that a header has where the likely ways can't take it, since its size is
// neither 0 nor 53 or, of a raw policer, its header is wrong.
fn named(w: Way, arrivals: &[u8], size: u8, i: usize) -> u32
    requires { (cell_start i + octets ≤ length arrivals.now) × NamesBy w }
    ensures is { result ≡ likely_name w.raw w.kind arrivals.now size i }
    ensures reads { size ≡ 53 → (result ≡ no_name → ⊥) → Reads w.kind (header_at w.kind arrivals.now (53 * i)) result }
{
    match size {
        0 => 0,
        53 => {
            let head = leaf_header::head_at(arrivals, 53 * i);
            if w.raw != 0 && base_hec::check_of(head) != arrivals[53 * i + 4] {
                return 4294967295;
            }
            leaf_header::name_by(head, w.mask)
        }
        _ => 4294967295,
    }
}

// Step 3 of slot i's cell, by its name.
fn judged(w: Way, words: &[u32], name: u32, arrivals: &[u8], i: usize) -> Option<Judged>
    requires { (w.n ≤ most_n) × (w.v ≤ most_v) × (length words.now ≡ words_in w.v) × (cell_start i + octets ≤ length arrivals.now) }
    ensures { result ≡ judged_name w.n w.v w.t words.now name (clp_in (cell_before arrivals i)) }
{
    let at = 53 * i;
    let to = at + 53;
    slot_arrive::judge(w.n as u16, w.v as u16, words, name, w.t, &arrivals[at..to])
}

// Slot i of a burst on a likely way, its cell having so many octets.
// Whether it is let in is one test of the verdict: `quiet` needs no seat, and `accept` is handed one.
pub fn slot(
    w: Way,
    cells: &mut [u8],
    links: &mut [u16],
    calendar: &mut [u16],
    words: &mut [u32],
    bits: &mut [u64],
    arrived: &mut [u32],
    arrivals: &[u8],
    size: u8,
    departures: &mut [u8],
    answers: &mut [u16],
    i: usize,
) -> Option<Went>
    requires ready_in { ReadyIn w cells.old links.old calendar.old words.old bits.old arrived.old }
    requires octets_in_bounds { (cell_start i + octets ≤ length arrivals.now) × HandedTo departures.old answers.old i }
    ensures fits { IfSome result (λ g. (size ≡ 0) ⊎ (size ≡ 53)) }
    ensures clean { IfSome result (λ g. CleanIn w arrivals.now size i) }
    ensures is { ServedOrLeft w (from_here w (take size (drop (cell_start i) arrivals.now)) cells links calendar words bits arrived)
        result cells links calendar words bits arrived departures answers i }
    ensures kept { IfNone result (Keeps w cells.old links.old calendar.old words.old bits.old arrivals.now size i → ⊥) }
{
    let b = burst_rotate::turned(w, words)?;
    let name = named(w, arrivals, size, i);
    let j = judged(w, words, name, arrivals, i)?;
    if !meaning::lets_in(j.verdict) {
        return quiet(
            w, b, j, cells, links, calendar, words, bits, arrived, departures, answers, i,
        );
    }
    let p = burst_arrive::seat_of(w, usize::from(j.vci), usize::from(j.d), calendar, bits)?;
    accept(
        w, b, j, p, cells, links, calendar, words, bits, arrived, arrivals, departures, answers, i,
    )
}
