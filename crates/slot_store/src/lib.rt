// Step 3 of an accepted cell: all that it writes, and the record once its space is taken.
#![tactic(auto)]

ghost use Rattle.std.specs.Prelude.{◌≡◌, true, not, ◌+◌, ◌-◌, ◌≤◌, ◌<◌, length, set};
ghost use Rattle.meaning.specs.Plain.{◌=?◌};
ghost use Rattle.meaning.specs.Numbers.{empty, cell_start, octets};
ghost use Rattle.meaning.specs.Bits.{taken, marked};
ghost use Rattle.meaning.specs.Arrival.{sent_as};
ghost use Rattle.meaning.specs.State.{write_cell, HasConnection};
ghost use Rattle.meaning.specs.Lists.{write_entry};
ghost use Rattle.meaning.specs.Lent.{here};
ghost use Rattle.slot_arrive.specs.Arrival.{filled};
ghost use Rattle.mem_lists.specs.Spaces.{ends_of, linked};
ghost use Rattle.slot_plan.specs.Plan.{with_ends, rotated, seat_ends};
ghost use Rattle.slot_plan.specs.Facts.{Sized, Accepted, Seated};

use meaning::Record;
use mem_lists::Seat;
use slot_arrive::{Fall, Judged};

// Steps 2 and 3 in the words where a cell is accepted.
fn words_fill(k: Record, b: Option<Fall>, j: Judged, words: &mut [u32])
    requires has_connection { HasConnection k.rotation words.old }
    requires has_connection_2 { HasConnection j.vci words.old }
    ensures { words.new ≡ filled j.vci j.s j.second k.t j.waiting (rotated k b words.old) }
{
    if let Some(f) = b {
        slot_arrive::put_fallen(words, k.rotation, f.s, f.second, k.t);
    }
    slot_arrive::put_fill(words, j.vci, j.s, j.second, k.t, j.waiting);
}

// The cell as it is stored: with CLP 1 where it is tagged.
// One test of the verdict, which is C's number: 5 is tagged, and `Arrival.sent_as` asks the same.
pub fn put_sent(verdict: u16, cells: &mut [u8], x: u16, cell: &[u8])
    requires { (cell_start x + octets ≤ length cells.old) × (length cell.now ≡ 53) }
    ensures { cells.new ≡ write_cell cells.old x (sent_as verdict cell.now) }
{
    if verdict == 5 {
        mem_cell::put_tagged(cells, x, cell);
        return;
    }
    mem_cell::put_cell(cells, x, cell);
}

// "Arrival slots are kept beside the cells": the cell in space x, tagged or not, arrived in slot t.
fn put_arrived(arrived: &mut [u32], x: u16, t: u32)
    requires { x < length arrived.old }
    ensures { arrived.new ≡ set arrived.old x t }
{
    arrived[x as usize] = t;
}

// The tail of an entry that a cell has joined at the head.
// A seat's ends are as the calendar stores them, 65,535 for none, and the tail goes back so: no `Option` in between.
pub fn tail_of(a: Seat) -> u16
    ensures { result ≡ (seat_ends a).tail }
{
    if a.head == 65535 { a.x } else { a.tail }
}

// The record once an accepted cell has taken its space.
pub fn seated(k: Record) -> Record
    requires { 1 ≤ k.free }
    ensures { result ≡ with_ends k (k.free - 1) (ends_of k.outhead k.outtail) }
{
    meaning::record_with(k, k.t, k.turn, k.rotation, k.free - 1, k.outhead, k.outtail)
}

// Step 3 of an accepted cell: all that it writes.
pub fn store(
    k: Record,
    b: Option<Fall>,
    j: Judged,
    a: Seat,
    cells: &mut [u8],
    links: &mut [u16],
    calendar: &mut [u16],
    words: &mut [u32],
    bits: &mut [u64],
    arrived: &mut [u32],
    cell: &[u8],
)
    requires sized { Sized (here k cells links calendar words bits arrived) }
    requires accepted { Accepted k j cell.now words.old }
    requires seated { Seated k a bits.old }
    ensures cells { cells.new ≡ write_cell cells.old a.x (sent_as j.verdict cell.now) }
    ensures links { links.new ≡ linked (not (a.head =? empty)) a.x a.head links.old }
    ensures calendar { calendar.new ≡ write_entry calendar.old a.e (seat_ends a) }
    ensures words { words.new ≡ filled j.vci j.s j.second k.t j.waiting (rotated k b words.old) }
    ensures bits { bits.new ≡ marked (taken bits.old a.x) a.e }
    ensures arrived { arrived.new ≡ set arrived.old a.x k.t }
{
    words_fill(k, b, j, words);
    mem_bits::occupy(bits, a.x, a.e);
    put_sent(j.verdict, cells, a.x, cell);
    put_arrived(arrived, a.x, k.t);
    mem_lists::put_link(links, a.head != 65535, a.x, a.head);
    let tail = tail_of(a);
    mem_lists::put_entry(calendar, a.e, a.x, tail);
}
