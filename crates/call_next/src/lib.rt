// How long until something leaves: how many slots from now, if no cell arrives, the next cell leaves. Nothing is written.
#![tactic(auto)]

ghost use Rattle.std.specs.Prelude.{◌≡◌, ◌+◌, ◌*◌, ◌%◌, ◌≤◌, ◌<◌, length};
ghost use Rattle.meaning.specs.Numbers.{most_n, per_entry, bit_words};
ghost use Rattle.meaning.specs.State.{ends_of};
ghost use Rattle.meaning.specs.Next.{wait_for};
ghost use Rattle.call_next.specs.Ends.{number_of, cell_in, wait_is, entry_wait};

use meaning::{Record, Wait};

// Why there is no answer: refusals 1, 2 and 3.
#[derive(Clone, Copy)]
enum Refused {
    Ranges,
    Lengths,
    State,
}

impl Refused {
    fn number(self) -> u16
        ensures { result ≡ number_of self }
    {
        match self {
            Refused::Ranges => 1,
            Refused::Lengths => 2,
            Refused::State => 3,
        }
    }
}

// Whether the list with a head and a tail has a cell; none where they are out of range.
#[tactic(auto, unfolding(crate::specs::Ends::cell_in, meaning::specs::Lists::ends_fit))]
fn has_cell(n: u16, head: u16, tail: u16) -> Option<bool>
    requires { n ≤ most_n }
    ensures { result ≡ cell_in n (ends_of head tail) }
{
    if head == 65535 {
        (tail == 65535).then_some(false)
    } else {
        (head < n && tail < n).then_some(true)
    }
}

// The entry d after entry T in the ring of N, without a division.
fn entry_after(n: u16, turn: u16, d: u16) -> u16
    requires { (n ≤ most_n) × (turn < n) × (d < n) }
    ensures is { result ≡ (turn + d) % n }
    ensures low { result < n }
{
    let e = turn + d;
    if e < n { e } else { e - n }
}

// The answer where refusals 1 and 2 are not given, T is below N and the Output List is empty: the distance to the nearest marked entry, if that
// entry has a cell.
#[tactic(auto, unfolding(crate::specs::Ends::entry_wait, crate::specs::Ends::cell_in, meaning::specs::Lists::entry_at))]
fn until_entry(n: u16, turn: u16, calendar: &[u16], bits: &[u64]) -> Result<Option<u16>, Refused>
    requires { (n ≤ most_n) × (turn < n) × (length calendar.now ≡ per_entry * n) × (length bits.now ≡ bit_words) }
    ensures { wait_is result ≡ entry_wait n turn calendar.now bits.now }
{
    let Some(d) = mem_marks::next_mark(n, turn, bits) else {
        return Ok(None);
    };
    let at = 2 * usize::from(entry_after(n, turn, d));
    if has_cell(n, calendar[at], calendar[at + 1]).unwrap_or(false) {
        Ok(Some(d))
    } else {
        Err(Refused::State)
    }
}

// The answer, or why there is none: how many slots from now the next cell leaves; none where none waits.
#[tactic(auto, using(leaf_refusal::proofs::Ranges::ranges_facts), unfolding(meaning::specs::Next::wait_for, crate::specs::Ends::entry_wait, crate::specs::Ends::cell_in))]
fn until(r: Record, calendar: &[u16], bits: &[u64]) -> Result<Option<u16>, Refused>
    ensures { wait_is result ≡ wait_for r calendar.now bits.now }
{
    if !leaf_refusal::ranges_hold(r.n, r.v) {
        return Err(Refused::Ranges);
    }
    if calendar.len() != 2 * usize::from(r.n) || bits.len() != 32 {
        return Err(Refused::Lengths);
    }
    if r.turn >= r.n {
        return Err(Refused::State);
    }
    match has_cell(r.n, r.outhead, r.outtail) {
        None => Err(Refused::State),
        Some(true) => Ok(Some(1)),
        Some(false) => until_entry(r.n, r.turn, calendar, bits),
    }
}

// "Answer how many slots from now, if none arrives, the next cell leaves"; 0 slots for none, and in a refusal.
pub fn next(r: Record, calendar: &[u16], bits: &[u64]) -> Wait
    ensures { result ≡ wait_for r calendar.now bits.now }
{
    match until(r, calendar, bits) {
        Ok(slots) => Wait {
            number: 0,
            slots: slots.unwrap_or(0),
        },
        Err(refused) => Wait {
            number: refused.number(),
            slots: 0,
        },
    }
}
