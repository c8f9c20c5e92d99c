// Steps 4 and 5 on a likely way: what departs, in memory as it is or once a cell is accepted. A test that fails leaves the
// likely way with everything as it came, and the slot is then served as the call has it: so the order of the tests is free,
// and nothing here refuses.
#![tactic(auto)]

ghost use Rattle.std.specs.Prelude.{◌≡◌, ◌≢◌, true, ◌+◌, ◌*◌, ◌≤◌, ◌<◌, length, get_or, set, MatchOption};
ghost use Rattle.meaning.specs.Numbers.{most_n, most_v, octets, cell_start, connections_in, words_in, bit_words, empty};
ghost use Rattle.meaning.specs.Bits.{is_free_space, taken};
ghost use Rattle.meaning.specs.Lists.{ends_fit, entry_at};
ghost use Rattle.mem_lists.specs.Spaces.{ends_of};
ghost use Rattle.mem_lists.specs.Leaver.{leaver_of};
ghost use Rattle.slot_plan.specs.Plan.{seat_ends};
ghost use Rattle.slot_plan.specs.Facts.{SizedWith};
ghost use Rattle.burst_way.specs.Way.{slot_record, NamesBy};
ghost use Rattle.burst_arrive.specs.Arriving.{seat_at, Seats};
ghost use Rattle.burst_depart.specs.Leaving.{Left, PlannedUnmarked, PlannedMarked, Linked, Planned, Leaves, Regular};
ghost use Rattle.burst_depart.specs.Leaving.{unless_zero, RegularNow, RegularThen, OffHereIn, OffThenIn, entry_then, MayRead};

use burst_arrive::Spot;
use burst_way::Way;
use meaning::{AT_WAITING, WORDS_PER_CONNECTION};

// What departs: the space and its connection, and what is left of the Output List; whether entry T is marked, and the head of its chain
// where that follows the old tail.
#[derive(Clone, Copy)]
pub struct Leave {
    pub space: usize,
    pub vci: usize,
    pub next: usize,
    pub tail: usize,
    pub marked: bool,
    pub follows: Option<usize>,
}

// The connection whose cell is in space x, if that cell may depart.
fn seen(w: Way, cells: &[u8], words: &[u32], x: usize) -> Option<usize>
    requires n_le_most_n { (w.n ≤ most_n) × (w.v ≤ most_v) × (cell_start x + octets ≤ length cells.now) × (length words.now ≡ words_in w.v) }
    requires names_by { NamesBy w }
    ensures { result ≡ unless_zero (leaver_of w.n w.v w.kind cells.now words.now x) }
{
    let head = leaf_header::head_at(cells, 53 * x);
    let name = leaf_header::name_by(head, w.mask);
    let u = usize::from(leaf_header::number_for(w.v as u16, name));
    if u == 0 {
        return None;
    }
    let b = WORDS_PER_CONNECTION * u;
    if words[b] != 1 {
        return None;
    }
    if (1..=w.n as u32).contains(&words[b + AT_WAITING]) {
        return Some(u);
    }
    None
}

// What is left of a list from x to tail once x has gone.
#[derive(Clone, Copy)]
struct Rest {
    next: usize,
    tail: usize,
}

fn rest_of(links: &[u16], x: usize, tail: usize) -> Option<Rest>
    requires { x < length links.now }
    ensures { MatchOption result ((x ≢ tail) × (length links.now ≤ get_or links.now x 0))
        (λ r. Left (length links.now) links.now x tail r.next r.tail) }
{
    if x == tail {
        return Some(Rest {
            next: 65535,
            tail: 65535,
        });
    }
    let next = usize::from(links[x]);
    if next < links.len() {
        return Some(Rest { next, tail });
    }
    None
}

// The same where the chain from head to tail has joined the list's old end, and x is not that tail.
fn rest_joined(links: &[u16], x: usize, old: usize, head: usize, tail: usize) -> Option<Rest>
    requires { (x < length links.now) × (head < length links.now) }
    ensures { MatchOption result (x ≢ tail → length links.now ≤ get_or (set links.now old head) x 0)
        (λ r. Left (length links.now) (set links.now old head) x tail r.next r.tail) }
{
    if x == tail {
        return None;
    }
    let next = if x == old {
        head
    } else {
        usize::from(links[x])
    };
    if next < links.len() {
        return Some(Rest { next, tail });
    }
    None
}

// Steps 4 and 5 but for the departing connection, where entry T is not marked. None leaves the likely way, as everywhere here; Some(None)
// says that nothing departs.
fn plan_unmarked(w: Way, links: &[u16]) -> Option<Option<Leave>>
    requires { (w.n ≤ most_n) × (length links.now ≡ w.n) × (ends_fit w.n (ends_of w.outhead w.outtail) ≡ true) }
    ensures { MatchOption result ((w.outhead ≢ empty) × (w.outhead ≢ w.outtail) × (w.n ≤ get_or links.now w.outhead 0))
        (λ found. MatchOption found (w.outhead ≡ empty) (λ o. PlannedUnmarked (slot_record w) links.now o)) }
{
    if w.outhead == 65535 {
        return Some(None);
    }
    let r = rest_of(links, w.outhead, w.outtail)?;
    Some(Some(Leave {
        space: w.outhead,
        vci: 0,
        next: r.next,
        tail: r.tail,
        marked: false,
        follows: None,
    }))
}

// The same where it is marked, from head to tail. Something departs then, but as an Option of it a slot costs three in a hundred more.
fn plan_marked(w: Way, links: &[u16], head: usize, tail: usize) -> Option<Option<Leave>>
    requires { (w.n ≤ most_n) × (length links.now ≡ w.n) × (ends_fit w.n (ends_of w.outhead w.outtail) ≡ true) × (head < w.n) × (tail < w.n) }
    ensures { MatchOption result (Linked (slot_record w) links.now (ends_of head tail) → ⊥)
        (λ found. MatchOption found ⊥ (λ o. PlannedMarked (slot_record w) links.now (ends_of head tail) o)) }
{
    if w.outhead == 65535 {
        let r = rest_of(links, head, tail)?;
        return Some(Some(Leave {
            space: head,
            vci: 0,
            next: r.next,
            tail: r.tail,
            marked: true,
            follows: None,
        }));
    }
    let r = rest_joined(links, w.outhead, w.outtail, head, tail)?;
    Some(Some(Leave {
        space: w.outhead,
        vci: 0,
        next: r.next,
        tail: r.tail,
        marked: true,
        follows: Some(head),
    }))
}

// Steps 4 and 5 but for the departing connection.
fn plan(w: Way, links: &[u16], calendar: &[u16]) -> Option<Option<Leave>>
    requires { MayRead w links calendar }
    ensures { MatchOption result (Linked (slot_record w) links.now (entry_at calendar.now w.turn) → ⊥)
        (λ found. Planned (slot_record w) links.now (entry_at calendar.now w.turn) found) }
{
    let head = usize::from(calendar[2 * w.turn]);
    let tail = usize::from(calendar[2 * w.turn + 1]);
    if head == 65535 {
        if tail != 65535 {
            return None;
        }
        return plan_unmarked(w, links);
    }
    if head >= w.n {
        return None;
    }
    if tail >= w.n {
        return None;
    }
    plan_marked(w, links, head, tail)
}

// Steps 4 and 5 where no cell is accepted.
pub fn off_quiet(
    w: Way,
    cells: &[u8],
    links: &[u16],
    calendar: &[u16],
    words: &[u32],
    bits: &[u64],
) -> Option<Option<Leave>>
    requires sized_with { SizedWith (slot_record w) cells.now links.now calendar.now words.now bits.now }
    requires outtail_value { ends_fit w.n (ends_of w.outhead w.outtail) ≡ true }
    requires names_by { NamesBy w }
    ensures { MatchOption result (Regular (slot_record w) cells.now links.now words.now bits.now (entry_at calendar.now w.turn) → ⊥)
        (λ found. Leaves (slot_record w) bits.now (entry_at calendar.now w.turn) found (OffHereIn w cells links words)) }
{
    let Some(o) = plan(w, links, calendar)? else {
        return Some(None);
    };
    if mem_bits::is_free(bits, o.space as u16) {
        return None;
    }
    let vci = seen(w, cells, words, o.space)?;
    Some(Some(Leave { vci, ..o }))
}

// The cell has D 0 and joined entry T, which then joins the Output List: the cell itself departs if that is empty. A space that is
// free departs from no list; the cell's own, free before the cell came, is so told from any other.
fn off_now(
    w: Way,
    p: Spot,
    cells: &[u8],
    links: &[u16],
    words: &[u32],
    bits: &[u64],
) -> Option<Option<Leave>>
    requires n_le_most_n { (w.n ≤ most_n) × (w.v ≤ most_v) × (length cells.now ≡ octets * w.n) × (length links.now ≡ w.n)
        × (length words.now ≡ words_in w.v) × (length bits.now ≡ bit_words) }
    requires outtail_value { (ends_fit w.n (ends_of w.outhead w.outtail) ≡ true) × (ends_fit w.n (ends_of p.head p.tail) ≡ true)
        × (p.x < w.n) × (1 ≤ p.vci) × (p.vci < connections_in w.v) × (is_free_space bits.now p.x ≡ true) }
    requires names_by { NamesBy w }
    ensures { MatchOption result (RegularNow (slot_record w) p cells.now links.now words.now bits.now → ⊥)
        (λ found. Leaves (slot_record w) (taken bits.now p.x) (seat_ends (seat_at p)) found (OffThenIn w p cells links words)) }
{
    if w.outhead == 65535 {
        if p.tail == p.x {
            return None;
        }
        return Some(Some(Leave {
            space: p.x,
            vci: p.vci,
            next: p.head,
            tail: p.tail,
            marked: true,
            follows: None,
        }));
    }
    if mem_bits::is_free(bits, w.outhead as u16) {
        return None;
    }
    let tail = if p.head == 65535 { p.x } else { p.tail };
    let r = rest_joined(links, w.outhead, w.outtail, p.x, tail)?;
    let vci = seen(w, cells, words, w.outhead)?;
    Some(Some(Leave {
        space: w.outhead,
        vci,
        next: r.next,
        tail: r.tail,
        marked: true,
        follows: Some(p.x),
    }))
}

// The cell has D above 0 and joined another entry than T; it does not depart in this slot.
fn off_later(
    w: Way,
    p: Spot,
    cells: &[u8],
    links: &[u16],
    calendar: &[u16],
    words: &[u32],
    bits: &[u64],
) -> Option<Option<Leave>>
    requires sized_with { SizedWith (slot_record w) cells.now links.now calendar.now words.now bits.now }
    requires outtail_value { (ends_fit w.n (ends_of w.outhead w.outtail) ≡ true) × (1 ≤ p.vci) × (p.vci < connections_in w.v)
        × (is_free_space bits.now p.x ≡ true) }
    requires names_by { NamesBy w }
    ensures { MatchOption result (Regular (slot_record w) cells.now links.now words.now bits.now (entry_at calendar.now w.turn) → ⊥)
        (λ found. Leaves (slot_record w) (taken bits.now p.x) (entry_at calendar.now w.turn) found (OffThenIn w p cells links words)) }
{
    let Some(o) = plan(w, links, calendar)? else {
        return Some(None);
    };
    if mem_bits::is_free(bits, o.space as u16) {
        return None;
    }
    let vci = seen(w, cells, words, o.space)?;
    Some(Some(Leave { vci, ..o }))
}

// Steps 4 and 5 where a cell is accepted.
// D 0 or above is one test: with D 0 the cell itself has joined entry T, which need not be read again.
pub fn off_accept(
    w: Way,
    p: Spot,
    cells: &[u8],
    links: &[u16],
    calendar: &[u16],
    words: &[u32],
    bits: &[u64],
) -> Option<Option<Leave>>
    requires sized_with { SizedWith (slot_record w) cells.now links.now calendar.now words.now bits.now }
    requires outtail_value { ends_fit w.n (ends_of w.outhead w.outtail) ≡ true }
    requires seats { Seats (slot_record w) calendar.now bits.now p }
    requires d_lt_n { (p.d < w.n) × (1 ≤ p.vci) × (p.vci < connections_in w.v) }
    requires names_by { NamesBy w }
    ensures { MatchOption result (RegularThen (slot_record w) p cells.now links.now calendar.now words.now bits.now → ⊥)
        (λ found. Leaves (slot_record w) (taken bits.now p.x) (entry_then (slot_record w) p calendar.now) found (OffThenIn w p cells links words)) }
{
    if p.d == 0 {
        return off_now(w, p, cells, links, words, bits);
    }
    off_later(w, p, cells, links, calendar, words, bits)
}
