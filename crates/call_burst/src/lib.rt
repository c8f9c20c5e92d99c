// Slot after slot in one call, as cards poll: each slot's departing cell is copied out, since its space may be taken
// again within the burst, and its answer is written as six numbers.
#![tactic(auto)]

ghost use Rattle.std.specs.Prelude.{◌≡◌, true, not, ◌+◌, ◌-◌, ◌*◌, ◌≤◌, ◌<◌, length, drop};
ghost use Rattle.meaning.specs.Plain.{◌=?◌};
ghost use Rattle.meaning.specs.Numbers.{most_n, most_v, connections_in, unused, words_in, bit_words, ranges_hold};
ghost use Rattle.meaning.specs.Promises.{slot_promise};
ghost use Rattle.meaning.specs.Lent.{before, after, served_after};
ghost use Rattle.burst_way.specs.Way.{last_record};
ghost use Rattle.leaf_refusal.specs.Order.{refuse_of, first_of};
ghost use Rattle.leaf_refusal.specs.Refusals.{given_number};
ghost use Rattle.call_burst.specs.Burst.{size_fits, one_slot, slots, lengths_fit};
ghost use Rattle.call_burst.specs.Promise.{burst_promise, SlotLent, BurstLent};
ghost use Rattle.call_burst.specs.Way.{Shaped, Tries, Room, HeldIn, HeldAfter, stretch_before, stretch_after, slots_from};

use burst_way::Way;
use leaf_refusal::{Refusal, lengths_hold, ranges_hold, refuse_unless};
use meaning::{PATHS, Record, Served, WORDS_PER_CONNECTION};
use mem_lists::pair;

// What a burst gives back: the record, the number that ended it (0 for none), and how many slots were served.
#[repr(C)]
#[derive(Clone, Copy)]
pub struct BurstEnd {
    pub ctl: Record,
    pub number: u16,
    pub done: usize,
}

// "a size neither 0 nor 53" is refused
fn size_fits(size: u8) -> bool
    ensures { result ≡ size_fits size }
{
    matches!(size, 0 | 53)
}

// Slot i of a burst as the call has it: served and written, or stopped with its number.
fn turn(
    ctl: Record,
    cells: &mut [u8],
    links: &mut [u16],
    calendar: &mut [u16],
    words: &mut [u32],
    bits: &mut [u64],
    arrived: &mut [u32],
    arrivals: &[u8],
    size: u8,
    departures: &mut [u8],
    answers: &mut [u16],
    i: usize,
) -> BurstEnd
    requires { SlotLent arrivals.now departures.old answers.old i }
    ensures { stretch_after (after result.ctl cells links calendar words bits arrived) departures answers result.number result.done
        ≡ one_slot arrivals.now size (stretch_before (before ctl cells links calendar words bits arrived) departures answers i) }
{
    if !size_fits(size) {
        return BurstEnd {
            ctl,
            number: u16::from(Refusal::CellSize),
            done: i,
        };
    }
    let a = 53 * i;
    let e = a + usize::from(size);
    let Served { ctl, answer } = call_slot::slot(
        ctl,
        cells,
        links,
        calendar,
        words,
        bits,
        arrived,
        &arrivals[a..e],
    );
    let number = answer.number;
    if number != 0 {
        return BurstEnd {
            ctl,
            number,
            done: i,
        };
    }
    burst_out::show(departures, i, cells, answer.space);
    burst_out::put_answer(answers, i, answer);
    BurstEnd {
        ctl,
        number: 0,
        done: i + 1,
    }
}

// Whether a likely way may be tried: the policer is not raw, or is raw in correction, where a clean header changes nothing; the line
// kind, T and rotation are in range, so are the Output List's ends, and the words of free spaces fit. Those are judged here alone:
// each slot of a likely way keeps what it knows of them.
fn may_try(r: Record, bits: &[u64]) -> bool
    requires { (r.n ≤ most_n) × (r.v ≤ most_v) × (length bits.now ≡ bit_words) }
    ensures { result ≡ true → Tries r bits.now }
{
    let raw_fits = match r.raw {
        0 => true,
        1 => r.mode == 0,
        _ => false,
    };
    raw_fits
        && r.kind <= 1
        && r.turn < r.n
        && r.rotation < r.v + PATHS
        && pair(r.n, r.outhead, r.outtail)
        && mem_bits::fits(r.n, r.free, bits)
}

// "its words are not read": records 0 and V are no connection's.
fn no_connection(v: usize, c: usize) -> bool
    ensures { result ≡ unused v c }
{
    c == 0 || c == v
}

// Where rotation leaves the VCs, at V, or the paths, at V + 256. So record V too is the first of its run.
fn part_end(w: Way) -> usize
    requires { (w.v ≤ most_v) × (w.rotation < connections_in w.v) }
    ensures { (w.rotation < result) × (result ≤ connections_in w.v) × (w.rotation < w.v → result ≤ w.v) }
{
    if w.rotation < w.v {
        return w.v;
    }
    burst_way::connections(w.v)
}

// Where a run from slot i ends: with the burst, or where T steps round, or where rotation leaves its part. Records 0 and V are
// not read in rotation's turn, so a run begins with one only where its open word is 0, as that of a closed connection.
// An open word is a number in the memory that C lends, and any may stand there: so it is asked whether it is 0.
fn run_end(w: Way, words: &[u32], i: usize, long: usize) -> usize
    requires { (w.turn < w.n) × (w.rotation < connections_in w.v) × (w.v ≤ most_v) × (words_in w.v ≡ length words.now) × (i ≤ long) }
    ensures { (i ≤ result) × (result ≤ long) × Room w words.now (result - i) }
{
    let part = part_end(w);
    let round = (w.n - w.turn).min(part - w.rotation);
    let lot = round.min(long - i);
    if no_connection(w.v, w.rotation) && words[WORDS_PER_CONNECTION * w.rotation] != 0 {
        return i;
    }
    i + lot
}

// How far the likely ways have led: the policer there, and how many slots are served.
#[derive(Clone, Copy)]
pub struct Far {
    pub way: Way,
    pub i: usize,
}

// The slots of a run on the likely ways, up to the first one that leaves them.
fn stretch(
    from: Way,
    cells: &mut [u8],
    links: &mut [u16],
    calendar: &mut [u16],
    words: &mut [u32],
    bits: &mut [u64],
    arrived: &mut [u32],
    arrivals: &[u8],
    sizes: &[u8],
    departures: &mut [u8],
    answers: &mut [u16],
    begin: usize,
    stop: usize,
) -> Far
    requires burst_lent { BurstLent arrivals.now sizes.now departures.old answers.old }
    requires held_in { HeldIn from cells links calendar words bits arrived }
    requires begin_le_stop { (begin ≤ stop) × (stop ≤ length sizes.now) × Room from words.old (stop - begin) }
    ensures held { HeldAfter result.way cells links calendar words bits arrived }
    ensures far { (begin ≤ result.i) × (result.i ≤ stop) }
    ensures rest { slots_from arrivals sizes result.i (stretch_after (after (last_record result.way) cells links calendar words bits arrived) departures answers 0 result.i)
        ≡ slots_from arrivals sizes begin (stretch_before (before (last_record from) cells links calendar words bits arrived) departures answers begin) }
{
    let mut w = from;
    for i in begin..stop {
        let Some(g) = burst_likely::slot(
            w, cells, links, calendar, words, bits, arrived, arrivals, sizes[i], departures,
            answers, i,
        ) else {
            return Far { way: w, i };
        };
        w = burst_way::stepped(burst_way::with_ends(w, g.free, g.outhead, g.outtail));
    }
    Far { way: w, i: stop }
}

// Run after run on the likely ways, as far as they lead.
fn advance(
    from: Way,
    cells: &mut [u8],
    links: &mut [u16],
    calendar: &mut [u16],
    words: &mut [u32],
    bits: &mut [u64],
    arrived: &mut [u32],
    arrivals: &[u8],
    sizes: &[u8],
    departures: &mut [u8],
    answers: &mut [u16],
    begin: usize,
) -> Far
    requires burst_lent { BurstLent arrivals.now sizes.now departures.old answers.old }
    requires held_in { HeldIn from cells links calendar words bits arrived }
    requires begin_in_bounds { (begin ≤ length sizes.now) × (from.turn < from.n) × (from.rotation < connections_in from.v) }
    ensures held { HeldAfter result.way cells links calendar words bits arrived }
    ensures far { (begin ≤ result.i) × (result.i ≤ length sizes.now) }
    ensures rest { slots_from arrivals sizes result.i (stretch_after (after (last_record result.way) cells links calendar words bits arrived) departures answers 0 result.i)
        ≡ slots_from arrivals sizes begin (stretch_before (before (last_record from) cells links calendar words bits arrived) departures answers begin) }
{
    let mut far = Far {
        way: from,
        i: begin,
    };
    // no `for`: where T steps round or rotation leaves its part is found anew for each run
    'runs: loop {
        let w = burst_way::rounded(far.way);
        let stop = run_end(w, words, far.i, sizes.len());
        if stop == far.i {
            return Far { way: w, i: stop };
        }
        far = stretch(
            w, cells, links, calendar, words, bits, arrived, arrivals, sizes, departures, answers,
            far.i, stop,
        );
        if far.i < stop {
            return far;
        }
    }
}

// As many slots as the likely ways take, from a record on: the record and how many slots are done then.
fn try_likely(
    ctl: Record,
    cells: &mut [u8],
    links: &mut [u16],
    calendar: &mut [u16],
    words: &mut [u32],
    bits: &mut [u64],
    arrived: &mut [u32],
    arrivals: &[u8],
    sizes: &[u8],
    departures: &mut [u8],
    answers: &mut [u16],
    begin: usize,
) -> (Record, usize)
    requires burst_lent { BurstLent arrivals.now sizes.now departures.old answers.old }
    requires shaped_2 { Shaped ctl cells.old links.old calendar.old words.old bits.old arrived.old }
    requires begin_in_bounds { begin ≤ length sizes.now }
    ensures far { (begin ≤ result.1) × (result.1 ≤ length sizes.now) }
    ensures shaped { Shaped result.0 cells.new links.new calendar.new words.new bits.new arrived.new }
    ensures rest { slots_from arrivals sizes result.1 (stretch_after (after result.0 cells links calendar words bits arrived) departures answers 0 result.1)
        ≡ slots_from arrivals sizes begin (stretch_before (before ctl cells links calendar words bits arrived) departures answers begin) }
{
    if !may_try(ctl, bits) {
        return (ctl, begin);
    }
    let from = burst_way::way_of(ctl, usize::from(ctl.n));
    let f = advance(
        from, cells, links, calendar, words, bits, arrived, arrivals, sizes, departures, answers,
        begin,
    );
    (burst_way::record_of(f.way), f.i)
}

// All slots of a burst that was not refused: as far as the likely ways lead, then one slot as the call has it, and again.
fn run(
    ctl: Record,
    cells: &mut [u8],
    links: &mut [u16],
    calendar: &mut [u16],
    words: &mut [u32],
    bits: &mut [u64],
    arrived: &mut [u32],
    arrivals: &[u8],
    sizes: &[u8],
    departures: &mut [u8],
    answers: &mut [u16],
) -> BurstEnd
    requires burst_lent { BurstLent arrivals.now sizes.now departures.old answers.old }
    requires shaped { Shaped ctl cells.old links.old calendar.old words.old bits.old arrived.old }
    ensures { stretch_after (after result.ctl cells links calendar words bits arrived) departures answers result.number result.done
        ≡ slots arrivals.now sizes.now (stretch_before (before ctl cells links calendar words bits arrived) departures answers 0) }
{
    let mut end = BurstEnd {
        ctl,
        number: 0,
        done: 0,
    };
    // no `for`: the likely ways take as many slots at a time as they lead
    while end.done < sizes.len() {
        let (ctl, i) = try_likely(
            end.ctl, cells, links, calendar, words, bits, arrived, arrivals, sizes, departures,
            answers, end.done,
        );
        if i == sizes.len() {
            return BurstEnd {
                ctl,
                number: 0,
                done: i,
            };
        }
        end = turn(
            ctl, cells, links, calendar, words, bits, arrived, arrivals, sizes[i], departures,
            answers, i,
        );
        if end.number != 0 {
            return end;
        }
    }
    end
}

// Whether a buffer has so many elements for each of k slots, without a product that could wrap.
fn is_times(long: usize, each: usize, k: usize) -> bool
    requires { 0 < each }
    ensures { result ≡ (long =? each * k) }
{
    long % each == 0 && long / each == k
}

// Whether all nine buffers have the lengths for N, V and so many sizes.
pub fn lengths_fit(
    ctl: Record,
    cells: usize,
    links: usize,
    calendar: usize,
    words: usize,
    bits: usize,
    arrived: usize,
    arrivals: usize,
    sizes: usize,
    departures: usize,
    answers: usize,
) -> bool
    ensures { result ≡ lengths_fit ctl.n ctl.v cells links calendar words bits arrived arrivals sizes departures answers }
{
    lengths_hold(ctl.n, ctl.v, cells, links, calendar, words, bits, arrived)
        && is_times(arrivals, 53, sizes)
        && is_times(departures, 53, sizes)
        && is_times(answers, 6, sizes)
}

// Refusals 1 and 2, in this order.
fn refusal(ctl: Record, fit: bool) -> Result<(), Refusal>
    ensures { given_number result ≡ first_of (refuse_of 1 (not (ranges_hold ctl.n ctl.v))) (refuse_of 2 (not fit)) }
{
    refuse_unless(ranges_hold(ctl.n, ctl.v), Refusal::Ranges)?;
    refuse_unless(fit, Refusal::Lengths)
}

// "runs slot after slot in one call"
pub fn burst(
    ctl: Record,
    cells: &mut [u8],
    links: &mut [u16],
    calendar: &mut [u16],
    words: &mut [u32],
    bits: &mut [u64],
    arrived: &mut [u32],
    arrivals: &[u8],
    sizes: &[u8],
    departures: &mut [u8],
    answers: &mut [u16],
) -> BurstEnd
    ensures { burst_promise (before ctl cells links calendar words bits arrived) arrivals sizes departures answers result (after result.ctl cells links calendar words bits arrived) }
{
    let fit = lengths_fit(
        ctl,
        cells.len(),
        links.len(),
        calendar.len(),
        words.len(),
        bits.len(),
        arrived.len(),
        arrivals.len(),
        sizes.len(),
        departures.len(),
        answers.len(),
    );
    if let Err(why) = refusal(ctl, fit) {
        return BurstEnd {
            ctl,
            number: u16::from(why),
            done: 0,
        };
    }
    run(
        ctl, cells, links, calendar, words, bits, arrived, arrivals, sizes, departures, answers,
    )
}
