// What departs once an accepted cell has its seat: read and judged in memory as the cell leaves it, before anything is written.
ghost use Rattle.std.specs.Prelude.{◌≡◌, true, ◌+◌, ◌*◌, ◌≤◌, ◌<◌, length};
ghost use Rattle.meaning.specs.Numbers.{most_n, most_v, octets, words_in, bit_words};
ghost use Rattle.meaning.specs.Bits.{is_free_space, taken};
ghost use Rattle.meaning.specs.Lists.{entry_at, write_entry};
ghost use Rattle.mem_lists.specs.Spaces.{ends_of};
ghost use Rattle.slot_plan.specs.Plan.{seat_ends, joined_head};
ghost use Rattle.slot_plan.specs.Facts.{OffStored};
ghost use Rattle.slot_accept.specs.Going.{MayGo, going_unmarked, going_marked, going_of};

use meaning::Record;
use mem_lists::{Off, Seat};
use slot_arrive::Judged;

// What departs once the cell is stored and, where joins, the chain from head to tail has joined the Output List. Laid in place in both
// its callers: as a call of its own it costs a slot with an accepted cell a tenth more.
#[inline(always)]
fn off_stored(
    k: Record,
    j: Judged,
    a: Seat,
    joins: bool,
    head: u16,
    tail: u16,
    cells: &[u8],
    links: &[u16],
    words: &[u32],
) -> Option<Off>
    requires n_le_most_n { (k.n ≤ most_n) × (k.v ≤ most_v) × (length cells.now ≡ octets * k.n) × (length links.now ≡ k.n) × (length words.now ≡ words_in k.v) }
    requires tail_bound { joined_head k (ends_of head tail) < k.n }
    ensures { OffStored k j a cells.now links.now words.now joins (ends_of head tail) result }
{
    let x = slot_depart::first_of(k.outhead, head);
    mem_lists::off_after(
        k.n,
        k.v,
        k.kind,
        cells,
        links,
        words,
        j.vci,
        a.x,
        a.head != 65535,
        a.head,
        joins,
        k.outtail,
        head,
        x,
        tail,
    )
}

// Whether space y is free once space x, which is free, is taken. Taking keeps the words and their number as they fit, so that of a
// departing space only this is judged again.
// That x is free is asked of the caller, who knows it of the seat (`Facts.Seated`).
fn free_after(bits: &[u64], x: u16, y: u16) -> bool
    requires { (length bits.now ≡ bit_words) × (is_free_space bits.now x ≡ true) × (y < most_n) }
    ensures { result ≡ is_free_space (taken bits.now x) y }
{
    if y == x {
        return false;
    }
    mem_bits::is_free(bits, y)
}

// The head of entry T once the cell has joined its own.
fn head_joined(turn: u16, a: Seat, calendar: &[u16]) -> u16
    requires { 2 * turn + 2 ≤ length calendar.now }
    ensures { result ≡ (entry_at (write_entry calendar.now a.e (seat_ends a)) turn).head }
{
    if a.e == turn {
        return a.x;
    }
    calendar[2 * (turn as usize)]
}

// Its tail.
fn tail_joined(turn: u16, a: Seat, calendar: &[u16]) -> u16
    requires { 2 * turn + 2 ≤ length calendar.now }
    ensures { result ≡ (entry_at (write_entry calendar.now a.e (seat_ends a)) turn).tail }
{
    if a.e == turn {
        return slot_store::tail_of(a);
    }
    calendar[2 * (turn as usize) + 1]
}

// What departs once the cell is stored: the space and its connection and what is left of the Output List; whether entry T joins that
// list, from which head, and whether it is emptied.
#[derive(Clone, Copy)]
pub struct Departing {
    pub off: Off,
    pub joins: bool,
    pub from: u16,
    pub clears: bool,
}

// Entry T is not marked: the head of the Output List departs, if it has one.
fn going_unmarked(
    k: Record,
    j: Judged,
    a: Seat,
    cells: &[u8],
    links: &[u16],
    words: &[u32],
    bits: &[u64],
) -> Option<Option<Departing>>
    requires { MayGo k a cells links words bits }
    ensures { result ≡ going_unmarked k j a cells.now links.now words.now bits.now }
{
    if k.outhead == 65535 {
        return Some(None);
    }
    let o = off_stored(k, j, a, false, 0, k.outtail, cells, links, words)?;
    if free_after(bits, a.x, o.space) {
        return None;
    }
    Some(Some(Departing {
        off: o,
        joins: false,
        from: 0,
        clears: false,
    }))
}

// Entry T is marked, from head to tail: it joins the Output List, whose head departs.
fn going_marked(
    k: Record,
    j: Judged,
    a: Seat,
    head: u16,
    tail: u16,
    cells: &[u8],
    links: &[u16],
    words: &[u32],
    bits: &[u64],
) -> Option<Option<Departing>>
    requires may_go { MayGo k a cells links words bits }
    requires head_lt_n { head < k.n }
    ensures { result ≡ going_marked k j a (ends_of head tail) cells.now links.now words.now bits.now }
{
    let joins = k.outhead != 65535;
    let o = off_stored(k, j, a, joins, head, tail, cells, links, words)?;
    if free_after(bits, a.x, o.space) {
        return None;
    }
    Some(Some(Departing {
        off: o,
        joins,
        from: head,
        clears: true,
    }))
}

// What departs, entry T being read as the cell leaves it: None where the slot is refused, Some(None) where nothing does. A head and a tail are tested by one comparison after the other: as one truth
// value a pair is worked out without branches, in twice as many instructions.
pub(crate) fn going(
    k: Record,
    j: Judged,
    a: Seat,
    cells: &[u8],
    links: &[u16],
    calendar: &[u16],
    words: &[u32],
    bits: &[u64],
) -> Option<Option<Departing>>
    requires may_go { MayGo k a cells links words bits }
    requires turn_in_bounds { 2 * k.turn + 2 ≤ length calendar.now }
    ensures { result ≡ going_of k j a cells.now links.now calendar.now words.now bits.now }
{
    let x = head_joined(k.turn, a, calendar);
    let y = tail_joined(k.turn, a, calendar);
    if x == 65535 {
        if y != 65535 {
            return None;
        }
        return going_unmarked(k, j, a, cells, links, words, bits);
    }
    if x >= k.n {
        return None;
    }
    if y >= k.n {
        return None;
    }
    going_marked(k, j, a, x, y, cells, links, words, bits)
}
