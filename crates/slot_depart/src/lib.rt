// How a slot ends: refused, as everything came; or with a departure, whose record, answer and writes stand here.
#![tactic(auto)]

ghost use Rattle.std.specs.Prelude.{◌≡◌, ◌+◌, ◌*◌, ◌≤◌, length};
ghost use Rattle.meaning.specs.Plain.{when◌then◌else◌, ◌=?◌};
ghost use Rattle.meaning.specs.Numbers.{empty};
ghost use Rattle.meaning.specs.Lists.{empty_list, write_entry};
ghost use Rattle.meaning.specs.Work.{answer_of, bare_answer};
ghost use Rattle.leaf_refusal.specs.Refusals.{number_of};
ghost use Rattle.mem_lists.specs.Spaces.{ends_of};
ghost use Rattle.slot_plan.specs.Plan.{with_ends};

use leaf_refusal::Refusal;
use meaning::{Answer, Record, Served};
use mem_lists::Off;

// "In a refusal all but the number are 0, and the space is 65,535." The number may be any.
pub fn refuse(r: Record, number: u16) -> Served
    ensures { (result.ctl ≡ r) × (result.answer ≡ bare_answer number) }
{
    Served {
        ctl: r,
        answer: Answer {
            number: number,
            verdict: 0,
            vci: 0,
            d: 0,
            space: 65535,
            departing: 0,
        },
    }
}

// The same with why: the number is the reason's own.
pub fn refuse_for(r: Record, why: Refusal) -> Served
    ensures { (result.ctl ≡ r) × (result.answer ≡ bare_answer (number_of why)) }
{
    refuse(r, u16::from(why))
}

// The head of a list that has grown at its end by a list that begins at x.
// head is a stored number, 65,535 where the list is empty (`Numbers.empty`), so this is no `Option::or`.
pub fn first_of(head: u16, x: u16) -> u16
    ensures { result ≡ (when head =? empty then x else head) }
{
    if head == 65535 { x } else { head }
}

// The record and answer where o departs, with this number of spaces free afterwards.
pub fn left(k: Record, free: u16, verdict: u16, vci: u16, d: u16, o: Off) -> Served
    ensures { (result.ctl ≡ with_ends k free (ends_of o.head o.tail)) × (result.answer ≡ answer_of 0 verdict vci d o.space o.vci) }
{
    let ctl = meaning::record_with(k, k.t, k.turn, k.rotation, free, o.head, o.tail);
    Served {
        ctl: ctl,
        answer: Answer {
            number: 0,
            verdict: verdict,
            vci: vci,
            d: d,
            space: o.space,
            departing: o.vci,
        },
    }
}

// An entry emptied, where on.
#[inline(always)]
pub fn clear_entry(calendar: &mut [u16], on: bool, e: u16)
    requires { 2 * e + 2 ≤ length calendar.old }
    ensures { calendar.new ≡ (when on then write_entry calendar.old e empty_list else calendar.old) }
{
    if on {
        mem_lists::put_entry(calendar, e, 65535, 65535);
    }
}
