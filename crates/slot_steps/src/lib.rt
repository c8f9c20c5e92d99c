// One slot without the header check: all that it reads is read and judged first, as numbers; then each case writes, so that a refusal leaves
// everything as it came.
// A refusal is a Served with its number: a `Result` of Served was tried, costs a slot more, and goes through memory once more.
// So r, the record as it came, goes beside k, in which the clock has moved: a refusal gives it back.
#![tactic(auto)]

ghost use Rattle.std.specs.Prelude.{◌≡◌, ◌+◌, ◌%◌, ◌<◌, ◌≤◌, length, ◌≢◌};
ghost use Rattle.meaning.specs.Numbers.{most_v, connections_in};
ghost use Rattle.meaning.specs.Lent.{here, before, seen, served_after, Gives};
ghost use Rattle.leaf_refusal.specs.Refusals.{given_number};
ghost use Rattle.slot_plan.specs.Plan.{clocked};
ghost use Rattle.slot_plan.specs.Facts.{Sized};
ghost use Rattle.slot_steps.specs.Slot.{shape_in, later_steps, unchecked_promise};

use leaf_refusal::{Refusal, refuse_unless};
use meaning::{PATHS, Record, Served};

// One more, modulo n, without a division.
fn after(x: u16, n: u16) -> u16
    requires { x < n }
    ensures { result ≡ (x + 1) % n }
{
    let y = x + 1;
    if y == n { 0 } else { y }
}

// Step 1.
fn clock(r: Record) -> Record
    requires { (r.turn < r.n) × (r.rotation < connections_in r.v) × (r.v ≤ most_v) }
    ensures { result ≡ clocked r }
{
    let t = std::num::wrapping_add_u32(r.t, 1);
    let turn = after(r.turn, r.n);
    let rotation = after(r.rotation, r.v + PATHS);
    meaning::record_with(r, t, turn, rotation, r.free, r.outhead, r.outtail)
}

// Steps 2 to 5, the clock having moved.
// Which way it goes is one test of the verdict: only a cell that is let in is stored, so only accept is lent arrived.
fn steps(
    r: Record,
    k: Record,
    cells: &mut [u8],
    links: &mut [u16],
    calendar: &mut [u16],
    words: &mut [u32],
    bits: &mut [u64],
    arrived: &mut [u32],
    cell: &[u8],
) -> Served
    requires sized { Sized (here k cells links calendar words bits arrived) }
    requires cell_len { (length cell.now ≢ 0) → length cell.now ≡ 53 }
    ensures { Gives r (later_steps (before k cells links calendar words bits arrived) cell.now) result cells links calendar words bits arrived }
{
    let Some(b) = slot_arrive::bring(k.n, k.v, words, k.rotation, k.t) else {
        return slot_depart::refuse_for(r, Refusal::Stored);
    };
    let name = slot_arrive::name_of(cell, k.kind);
    let Some(j) = slot_arrive::judge(k.n, k.v, words, name, k.t, cell) else {
        return slot_depart::refuse_for(r, Refusal::Stored);
    };
    if meaning::lets_in(j.verdict) {
        return slot_accept::accept(
            r, k, b, j, cells, links, calendar, words, bits, arrived, cell,
        );
    }
    slot_quiet::quiet(r, k, b, j, cells, links, calendar, words, bits)
}

// Refusals 1, 2 and 9.
pub fn shape(
    r: Record,
    cells: &[u8],
    links: &[u16],
    calendar: &[u16],
    words: &[u32],
    bits: &[u64],
    arrived: &[u32],
    cell: &[u8],
) -> Result<(), Refusal>
    ensures { given_number result ≡ shape_in (seen r cells links calendar words bits arrived) cell.now }
{
    refuse_unless(leaf_refusal::ranges_hold(r.n, r.v), Refusal::Ranges)?;
    let long = leaf_refusal::lengths_hold(
        r.n,
        r.v,
        cells.len(),
        links.len(),
        calendar.len(),
        words.len(),
        bits.len(),
        arrived.len(),
    );
    refuse_unless(long, Refusal::Lengths)?;
    refuse_unless(cell.len() == 0 || cell.len() == 53, Refusal::CellSize)
}

// "One slot, in this order", of a cell of 0 or 53 octets.
pub fn slot(
    r: Record,
    cells: &mut [u8],
    links: &mut [u16],
    calendar: &mut [u16],
    words: &mut [u32],
    bits: &mut [u64],
    arrived: &mut [u32],
    cell: &[u8],
) -> Served
    ensures { unchecked_promise (before r cells links calendar words bits arrived) cell.now (served_after result cells links calendar words bits arrived) }
{
    if let Err(why) = shape(r, cells, links, calendar, words, bits, arrived, cell) {
        return slot_depart::refuse_for(r, why);
    }
    if r.turn >= r.n {
        return slot_depart::refuse_for(r, Refusal::Stored);
    }
    if r.rotation >= r.v + PATHS {
        return slot_depart::refuse_for(r, Refusal::Stored);
    }
    let k = clock(r);
    steps(r, k, cells, links, calendar, words, bits, arrived, cell)
}
