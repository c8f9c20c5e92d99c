// The delay summary of one connection: 64 bins and the number of cells, by value in and out, and the percentile that they give. It
// is handed what a slot has answered, and changes nothing of the policer.
#![tactic(auto)]

ghost use Rattle.std.specs.Prelude.{◌≡◌, ◌+◌, ◌*◌, ◌%◌, ◌^◌, ◌<◌, ◌≤◌, length, slice_index};
ghost use Rattle.meaning.specs.Bucket.{elapsed};
ghost use Rattle.leaf_refusal.specs.Refusals.{given_number};
ghost use Rattle.call_tally.specs.Step.{step_of, step_in};
ghost use Rattle.call_tally.specs.Tally.{bin_of, sum, most_cells, tally_fits, is_connection, space_fits, tally_refusal, standing};
ghost use Rattle.call_tally.specs.Tally.{tally_of, one_more, tally_slot, lowest, share_fits, percentile_of, report_in};

use leaf_refusal::{Refusal, ranges_hold, refuse_unless};
use meaning::{PATHS, Record};

// How many cells waited 0, 1, .. 62 slots, how many waited 63 or more, and how many there were.
#[repr(C)]
#[derive(Clone, Copy)]
pub struct Tally {
    pub bins: [u64; 64],
    pub cells: u64,
}

#[repr(C)]
#[derive(Clone, Copy)]
pub struct Tallied {
    pub number: u16,
    pub tally: Tally,
}

#[repr(C)]
#[derive(Clone, Copy)]
pub struct Bin {
    pub number: u16,
    pub bin: u16,
}

// "A tally of 2^32 cells takes no more."
const MOST_CELLS: u64 = 4294967296;

// All bins added, on 64 bits that wrap, and all bins laid over each other: the second says whether the first can have wrapped. No
// test within the loop, so that bins are added two at a time.
fn add_all(bins: &[u64; 64]) -> (u64, u64)
    ensures { (result.0 ≡ sum bins.now % 2 ^ 64) × (sum bins.now ≤ 64 * result.1) × (result.1 ≤ sum bins.now) }
{
    let mut sum = 0u64;
    let mut any = 0;
    for bin in bins {
        sum = sum.wrapping_add(*bin);
        any |= *bin;
    }
    (sum, any)
}

// "3, a tally whose number is above 2^32 or not the sum of its bins". Where no bin has more than 33 bits, the sum has not wrapped;
// where one has, the sum is above 2^32. Both are asked as one test, so that the bins are loaded once.
fn adds_up(tally: &Tally) -> bool
    ensures { result ≡ tally_fits tally.now.bins tally.now.cells }
{
    if tally.cells > MOST_CELLS {
        return false;
    }
    let (sum, any) = add_all(&tally.bins);
    (any >> 33) + u64::from(sum != tally.cells) == 0
}

// Refusal 4: a number outside 1 to V-1 and V+1 to V+255.
#[tactic(auto, unfolding(crate::specs::Tally::is_connection, meaning::specs::Numbers::unused))]
fn is_connection(v: u16, connection: u16) -> bool
    requires { v ≤ 1024 }
    ensures { result ≡ is_connection v connection }
{
    connection != 0 && connection != v && connection < v + PATHS
}

// The space is read only where the named connection's cell has left.
#[tactic(auto, unfolding(crate::specs::Tally::space_fits))]
fn space_fits(n: u16, connection: u16, space: u16, departing: u16) -> bool
    ensures { result ≡ space_fits n connection space departing }
{
    departing != connection || space < n
}

// Refusals 1, 2, 4 and 3, in this order. The bins come last, since they take longest.
#[tactic(auto, unfolding(crate::specs::Tally::tally_refusal))]
fn refusal_of(
    tally: &Tally,
    ctl: Record,
    arrived: usize,
    connection: u16,
    space: u16,
    departing: u16,
) -> Result<(), Refusal>
    ensures { given_number result ≡ tally_refusal tally.now.bins tally.now.cells ctl arrived connection space departing }
{
    refuse_unless(ranges_hold(ctl.n, ctl.v), Refusal::Ranges)?;
    refuse_unless(arrived == usize::from(ctl.n), Refusal::Lengths)?;
    refuse_unless(is_connection(ctl.v, connection), Refusal::Name)?;
    let spaces = space_fits(ctl.n, connection, space, departing);
    refuse_unless(spaces, Refusal::Stored)?;
    refuse_unless(adds_up(tally), Refusal::Stored)
}

// The slots from arrival to t, on the clock that wraps.
fn delay_of(t: u32, arrival: u32) -> u32
    ensures { result ≡ elapsed t arrival }
{
    t.wrapping_sub(arrival)
}

// "bin 63 holds all from 63 up"
fn bin_of(delay: u32) -> usize
    ensures { (result ≡ bin_of delay) × (result < 64) }
{
    if delay < 63 { delay as usize } else { 63 }
}

// What a call comes to: a refusal, or the bin that gets one cell more, if one does.
fn step_of(
    tally: &Tally,
    ctl: Record,
    arrived: &[u32],
    connection: u16,
    space: u16,
    departing: u16,
) -> Result<Option<usize>, Refusal>
    ensures { step_in result ≡ step_of tally.now.bins tally.now.cells ctl arrived.now connection space departing }
{
    refusal_of(tally, ctl, arrived.len(), connection, space, departing)?;
    if departing != connection {
        return Ok(None);
    }
    if tally.cells == MOST_CELLS {
        return Ok(None);
    }
    let delay = delay_of(ctl.t, arrived[usize::from(space)]);
    Ok(Some(bin_of(delay)))
}

// One cell more in this bin.
fn add_to(tally: &mut Tally, bin: usize)
    requires { (bin < 64) × (slice_index tally.old.bins bin + 1 < 2 ^ 64) × (tally.old.cells + 1 < 2 ^ 64) }
    ensures { tally.new ≡ tally_of (one_more tally.old.bins bin) (tally.old.cells + 1) }
{
    tally.bins[bin] += 1;
    tally.cells += 1;
}

// After a slot that answered this departing space and VCI: the tally of the named connection. What is given back is made first, and the
// cell is added there, so that the bins are copied the least.
pub fn tally_slot(
    tally: Tally,
    ctl: Record,
    arrived: &[u32],
    connection: u16,
    space: u16,
    departing: u16,
) -> Tallied
    ensures { result ≡ tally_slot tally ctl arrived.now connection space departing }
{
    let mut given = Tallied { number: 0, tally };
    match step_of(&tally, ctl, arrived, connection, space, departing) {
        Ok(Some(bin)) => add_to(&mut given.tally, bin),
        Ok(None) => {}
        Err(why) => given.number = u16::from(why),
    }
    given
}

// Refusals 1, 2, 4 and 3 of a tally before the first slot of a burst.
pub fn standing_refusal(
    tally: &Tally,
    ctl: Record,
    arrived: usize,
    connection: u16,
) -> Result<(), Refusal>
    ensures { given_number result ≡ standing tally.now.bins tally.now.cells ctl arrived connection }
{
    refusal_of(tally, ctl, arrived, connection, 65535, 0)
}

// The same after a slot of a burst, where the tally was judged before the first: its bins are not added up again.
pub fn take_departure(
    tally: &mut Tally,
    ctl: Record,
    arrived: &[u32],
    connection: u16,
    space: u16,
    departing: u16,
)
    requires { standing tally.old.bins tally.old.cells ctl (length arrived.now) connection ≡ 0 }
    ensures { tally.new ≡ (tally_slot tally.old ctl arrived.now connection space departing).tally }
{
    if departing != connection {
        return;
    }
    if space >= ctl.n {
        return;
    }
    if tally.cells == MOST_CELLS {
        return;
    }
    let delay = delay_of(ctl.t, arrived[usize::from(space)]);
    add_to(tally, bin_of(delay));
}

// All bins together reach what is needed, so the last one is not looked at.
fn lowest_bin(bins: &[u64; 64], need: u64) -> u16
    requires { (sum bins.now ≤ most_cells) × (need ≤ 1000 * sum bins.now) }
    ensures { result ≡ lowest need 0 bins.now }
{
    let mut running = 0;
    for i in 0..63 {
        running += bins[usize::from(i)];
        if 1000 * running >= need {
            return i;
        }
    }
    63
}

// "15, share outside 1 to 1,000, or no cell sent"
#[tactic(auto, using(leaf_refusal::proofs::Within::within), unfolding(crate::specs::Tally::share_fits))]
fn share_fits(share: u16, cells: u64) -> bool
    ensures { result ≡ share_fits share cells }
{
    (1..=1000).contains(&share) && cells >= 1
}

// The bin of a share in thousandths, or the first of refusals 3 and 15.
fn bin_at(tally: &Tally, share: u16) -> Result<u16, Refusal>
    ensures { report_in result ≡ percentile_of tally.now share }
{
    refuse_unless(adds_up(tally), Refusal::Stored)?;
    refuse_unless(share_fits(share, tally.cells), Refusal::Share)?;
    let need = u64::from(share) * tally.cells;
    Ok(lowest_bin(&tally.bins, need))
}

// The share is in thousandths: 500 asks for the median.
pub fn percentile(tally: Tally, share: u16) -> Bin
    ensures { result ≡ percentile_of tally share }
{
    match bin_at(&tally, share) {
        Ok(bin) => Bin { number: 0, bin },
        Err(why) => Bin {
            number: u16::from(why),
            bin: 0,
        },
    }
}
