// Virtual scheduling as a plain engine: it is handed a TAT and answers cell by cell. It has no memory of its own and knows
// nothing of the policer. Times are 64 bits wide, so that no slot number wraps.
#![tactic(auto)]

ghost use Rattle.std.specs.Prelude.{◌≡◌, true, ◌&&◌, ◌*◌, ◌^◌, ◌≤◌, ◌<◌};
ghost use Rattle.std.proofs.Math.IntN.{sub_ℕ};
ghost use Rattle.meaning.specs.Plain.{◌≤?◌};
ghost use Rattle.leaf_refusal.specs.Refusals.{given_number};
ghost use Rattle.call_time.specs.Schedule.{tat_of, stored_fits, in_order, refusal_of, scheduled, expected_at, timed};

use leaf_bucket::obeys_rules;
use leaf_refusal::{Refusal, refuse_unless};

// What the engine stores between two cells: TAT in parts of 1/L slot, the previous cell's slot, and whether a cell came yet.
#[repr(C)]
#[derive(Clone, Copy)]
pub struct Tat {
    pub tat: u64,
    pub arrival: u64,
    pub started: bool,
}

// What it answers. Earliness has a sign: negative when late.
#[repr(C)]
#[derive(Clone, Copy)]
pub struct Timed {
    pub number: u16,
    pub verdict: u16,
    pub early: i64,
    pub due: u64,
    pub tat: Tat,
}

// "N cell spaces, 1 to 1,024"
#[tactic(auto, using(leaf_refusal::proofs::Within::within))]
fn spaces_hold(n: u16) -> bool
    ensures { result ≡ (1 ≤? n && n ≤? 1024) }
{
    (1..=1024).contains(&n)
}

// Before the first cell nothing stored is read.
#[tactic(auto, unfolding(crate::specs::Schedule::stored_fits, crate::specs::Schedule::too_late, meaning::specs::Numbers::slot_numbers))]
fn stored_fits(tat: Tat) -> bool
    ensures { result ≡ stored_fits tat }
{
    !tat.started || tat.tat < 1 << 48 && tat.arrival < 1 << 32
}

// A first cell has none before it.
#[tactic(auto, unfolding(crate::specs::Schedule::in_order, meaning::specs::Numbers::slot_numbers))]
fn in_order(tat: Tat, arrival: u64) -> bool
    ensures { result ≡ in_order tat arrival }
{
    arrival < 1 << 32 && (!tat.started || tat.arrival < arrival)
}

// Refusals 1, 6, 3 and 12, in this order.
#[tactic(auto, unfolding(crate::specs::Schedule::refusal_of))]
fn refusal_of(tat: Tat, n: u16, m: u8, f: u32, c: u32, arrival: u64) -> Result<(), Refusal>
    ensures { given_number result ≡ refusal_of tat n m f c arrival }
{
    let rules = obeys_rules(n, u32::from(m), f, c);
    refuse_unless(spaces_hold(n), Refusal::Ranges)?;
    refuse_unless(rules, Refusal::Rules)?;
    refuse_unless(stored_fits(tat), Refusal::Stored)?;
    refuse_unless(in_order(tat, arrival), Refusal::OutOfOrder)
}

// A slot's start in parts of 1/L slot.
fn parts_of(arrival: u64, m: u8) -> u64
    requires { (arrival < 2 ^ 32) × (m ≤ 15) }
    ensures { result ≡ arrival * 2 ^ m }
{
    arrival << m
}

// TAT minus arrival. Both have at most 48 bits, so no sign is lost.
fn early_by(now: u64, expected: u64) -> i64
    requires { (now < 2 ^ 48) × (expected < 2 ^ 48) }
    ensures { result ≡ sub_ℕ expected now }
{
    expected as i64 - now as i64
}

// The state that a cell in this slot leaves, conforming or not.
fn state_of(tat: u64, arrival: u64) -> Tat
    ensures { result ≡ tat_of tat arrival true }
{
    Tat {
        tat,
        arrival,
        started: true,
    }
}

// The rule for a cell that arrives in this slot, at now in parts of 1/L slot.
// number 0 is no refusal, verdict 1 conforming and 2 nonconforming: `Timed` is C's struct, and C reads the numbers.
fn judge(state: Tat, f: u32, c: u32, arrival: u64, now: u64) -> Timed
    requires { (f ≤ c) × (now < 2 ^ 48) × (state.tat < 2 ^ 48) }
    ensures { result ≡ scheduled f c arrival now state.tat }
{
    let early = early_by(now, state.tat);
    let due = now.max(state.tat);
    let next = due + u64::from(f);
    let before = due - now;
    let tolerance = u64::from(c - f);
    if before > tolerance {
        let stays = state_of(state.tat, arrival);
        return Timed {
            number: 0,
            verdict: 2,
            early,
            due: 0,
            tat: stays,
        };
    }
    let moves = state_of(next, arrival);
    Timed {
        number: 0,
        verdict: 1,
        early,
        due,
        tat: moves,
    }
}

// "The first cell is on time": it is expected when it arrives.
#[tactic(auto, unfolding(crate::specs::Schedule::expected_at))]
fn expected(tat: Tat, arrival: u64, now: u64) -> Tat
    ensures { result.tat ≡ expected_at tat now }
{
    if tat.started {
        tat
    } else {
        state_of(now, arrival)
    }
}

// One cell. A refused one leaves the state as it came.
// Its verdict is 0 then, as include/clurimoon.h has it of clurimoon_timed.
pub fn time(tat: Tat, n: u16, m: u8, f: u32, c: u32, arrival: u64) -> Timed
    ensures { result ≡ timed tat n m f c arrival }
{
    if let Err(why) = refusal_of(tat, n, m, f, c, arrival) {
        return Timed {
            number: u16::from(why),
            verdict: 0,
            early: 0,
            due: 0,
            tat,
        };
    }
    let now = parts_of(arrival, m);
    judge(expected(tat, arrival, now), f, c, arrival, now)
}
