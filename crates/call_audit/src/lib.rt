// The audit of a policer's state: the clauses that need no walk, then a budget of 1 for each space that is not free and of
// waiting for each open connection, which the lists must use up.
#![tactic(auto)]

ghost use Rattle.std.specs.Prelude.{◌≡◌, ◌↔◌, true, IsTrue, ℕ, ◌+◌, ◌*◌, ◌≤◌, ◌<◌, length, get_or};
ghost use Rattle.meaning.specs.Numbers.{most_n, most_v, connections_in, connection_place, words_in, per_entry, bit_words};
ghost use Rattle.meaning.specs.Bits.{is_marked, spaces_fit};
ghost use Rattle.meaning.specs.State.{HasConnection};
ghost use Rattle.meaning.specs.Words.{connection_at};
ghost use Rattle.meaning.specs.Promises.{AuditPromise};
ghost use Rattle.meaning.specs.Lent.{seen};
ghost use Rattle.mem_walks.specs.Budget.{Gone};
ghost use Rattle.call_audit.specs.Budgets.{uses_of, inside, waits_of, FitFrom, filled_at, waits_at, AllFit};
ghost use Rattle.call_audit.specs.Marks.{has_cell, agrees, MarksAre};
ghost use Rattle.call_audit.specs.Shape.{record_fits, shape_holds};

use leaf_refusal::{kind_fits, lengths_hold, ranges_hold, splits_hold};
use meaning::{AT_WAITING, PATHS, Record, WORDS_PER_CONNECTION};
use mem_bits::{fits, is_free, is_marked};
use mem_walks::stored;
use mem_words::connection_fits;

// How often a space may be met: a free one never, any other once.
fn uses_of(bits: &[u64], x: u16) -> u32
    requires { (x < most_n) × (length bits.now ≡ bit_words) }
    ensures { result ≡ uses_of bits.now x }
{
    u32::from(!is_free(bits, x))
}

// The spaces' budget of all n spaces.
fn fill_spaces(b: &mut [u32], n: u16, bits: &[u64])
    requires { (n ≤ most_n) × (n ≤ length b.old) × Gone b.old × (length bits.now ≡ bit_words) }
    ensures { (x : ℕ) → get_or b.new x 0 ≡ inside bits.now x n }
{
    for x in 0..n {
        b[usize::from(x)] = uses_of(bits, x);
    }
}

// The cells that may wait at a connection: none at a closed one, whatever its word says.
fn waits_of(words: &[u32], conn: u16) -> u32
    requires { HasConnection conn words.now }
    ensures { result ≡ waits_of (connection_at words.now conn) }
{
    let base = WORDS_PER_CONNECTION * usize::from(conn);
    if words[base] == 1 {
        words[base + AT_WAITING]
    } else {
        0
    }
}

// The words of the connections from..to are in their ranges; their waiting cells go into the cells' budget.
fn fill_from(n: u16, from: u16, to: u16, words: &[u32], waits: &mut [u32]) -> bool
    requires { (from ≤ to) × (to ≤ length waits.old) × (connection_place to ≤ length words.now) }
    ensures yes { result ≡ true → (FitFrom n from to words.now × ((k : ℕ) → get_or waits.new k 0 ≡ filled_at words.now waits.old from to k)) }
    ensures no { FitFrom n from to words.now → result ≡ true }
{
    for conn in from..to {
        if !connection_fits(n, words, conn) {
            return false;
        }
        waits[usize::from(conn)] = waits_of(words, conn);
    }
    true
}

// The V records, then the path records; of each the first is no connection's, and is not read.
fn fill_waits(n: u16, v: u16, words: &[u32], waits: &mut [u32]) -> bool
    requires { (1 < v) × (v ≤ most_v) × (connections_in v ≤ length waits.old) × (words_in v ≤ length words.now) × Gone waits.old }
    ensures yes { result ≡ true → (AllFit n v words.now × ((k : ℕ) → get_or waits.new k 0 ≡ waits_at words.now v k)) }
    ensures no { AllFit n v words.now → result ≡ true }
{
    fill_from(n, 1, v, words, waits) && fill_from(n, v + 1, v + PATHS, words, waits)
}

// The bit of entry e says whether it is below N and has a cell.
#[tactic(auto, unfolding(crate::specs::Marks::agrees, meaning::specs::Lists::entry_at))]
fn mark_is(n: u16, calendar: &[u16], bits: &[u64], e: u16) -> bool
    requires { (e < most_n) × (length calendar.now ≡ per_entry * n) × (length bits.now ≡ bit_words) }
    ensures { result ≡ agrees (is_marked bits.now e) (has_cell n calendar.now e) }
{
    is_marked(bits, e) == (e < n && calendar[2 * usize::from(e)] != 65535)
}

// The bits of all entries are right.
fn marks_are(n: u16, calendar: &[u16], bits: &[u64]) -> bool
    requires { (length calendar.now ≡ per_entry * n) × (length bits.now ≡ bit_words) }
    ensures { IsTrue result ↔ MarksAre n calendar.now bits.now }
{
    (0..1024).all(|e| mark_is(n, calendar, bits, e))
}

// The bits of the spaces and of the entries fit.
fn bits_fit(n: u16, free: u16, calendar: &[u16], bits: &[u64]) -> bool
    requires { (n ≤ most_n) × (length calendar.now ≡ per_entry * n) × (length bits.now ≡ bit_words) }
    ensures { IsTrue result ↔ ((spaces_fit n free bits.now ≡ true) × MarksAre n calendar.now bits.now) }
{
    fits(n, free, bits) && marks_are(n, calendar, bits)
}

// T is below N and rotation below V + 256; raw and mode are each 0 or 1, and so is the line kind; the splits are in their ranges.
#[tactic(auto, unfolding(crate::specs::Shape::record_fits))]
fn record_fits(r: Record) -> bool
    ensures { result ≡ record_fits r }
{
    r.turn < r.n
        && u32::from(r.rotation) < u32::from(r.v) + u32::from(PATHS)
        && r.raw <= 1
        && r.mode <= 1
        && kind_fits(r.kind)
        && splits_hold(r.v, r.splitvci, r.splitpath)
}

// N, V, the six lengths, and the record's numbers that name no space.
#[tactic(auto, unfolding(crate::specs::Shape::shape_holds, meaning::specs::State::lengths_hold, meaning::specs::State::words_length))]
fn shaped(
    r: Record,
    cells: &[u8],
    links: &[u16],
    calendar: &[u16],
    words: &[u32],
    bits: &[u64],
    arrived: &[u32],
) -> bool
    ensures { result ≡ shape_holds (seen r cells links calendar words bits arrived) }
{
    ranges_hold(r.n, r.v)
        && lengths_hold(
            r.n,
            r.v,
            cells.len(),
            links.len(),
            calendar.len(),
            words.len(),
            bits.len(),
            arrived.len(),
        )
        && record_fits(r)
}

// Do the clauses of the audit hold? Linear in N + V: each list is walked once, and no space twice. What the arrival slots say is free.
// There is no heap: each budget is an array for the highest N or V. They stay apart, since mem_walks::stored takes them so.
pub fn audit(
    r: Record,
    cells: &[u8],
    links: &[u16],
    calendar: &[u16],
    words: &[u32],
    bits: &[u64],
    arrived: &[u32],
) -> bool
    ensures { AuditPromise (seen r cells links calendar words bits arrived) result }
{
    if !shaped(r, cells, links, calendar, words, bits, arrived)
        || !bits_fit(r.n, r.free, calendar, bits)
        || calendar[2 * usize::from(r.turn)] != 65535
    {
        return false;
    }
    let mut waits = [0u32; 1280];
    if !fill_waits(r.n, r.v, words, &mut waits) {
        return false;
    }
    let mut spaces = [0u32; 1024];
    fill_spaces(&mut spaces, r.n, bits);
    stored(r, cells, links, calendar, &mut spaces, &mut waits)
}
