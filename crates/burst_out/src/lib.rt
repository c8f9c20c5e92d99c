// What a slot of a burst hands out: its departing cell, copied into the slot's own 53 octets, since its space may be taken
// again within the burst, and its answer as six numbers.
#![tactic(auto)]

ghost use Rattle.std.specs.Prelude.{◌≡◌, ◌+◌, ◌*◌, ◌≤◌, length, take, drop};
ghost use Rattle.meaning.specs.Numbers.{octets, cell_start};
ghost use Rattle.meaning.specs.State.{write_cell};
ghost use Rattle.burst_out.specs.Handout.{shown_into, write_answer, Shows};

use meaning::Answer;
use mem_cell::copy_cell;

// The cell in this space, copied into slot i's own 53 octets.
pub fn copy_departure(departures: &mut [u8], i: usize, cells: &[u8], space: usize)
    requires { (cell_start i + octets ≤ length departures.old) × (cell_start space + octets ≤ length cells.now) }
    ensures { departures.new ≡ write_cell departures.old i (take 53 (drop (53 * space) cells.now)) }
{
    let a = 53 * i;
    let e = a + 53;
    let from = 53 * space;
    let to = from + 53;
    copy_cell(&mut departures[a..e], &cells[from..to]);
}

// The line cell of slot i, shown into its own octets: nothing moves where nothing departs.
pub fn show(departures: &mut [u8], i: usize, cells: &[u8], space: u16)
    requires octets_in_bounds { cell_start i + octets ≤ length departures.old }
    requires shows { Shows cells.now space }
    ensures { departures.new ≡ shown_into departures.old i cells.now space }
{
    if space == 65535 {
        return;
    }
    copy_departure(departures, i, cells, usize::from(space));
}

// The six numbers of slot i's answer.
pub fn put_answer(answers: &mut [u16], i: usize, a: Answer)
    requires { 6 * i + 6 ≤ length answers.old }
    ensures { answers.new ≡ write_answer answers.old i a }
{
    let at = 6 * i;
    answers[at] = a.number;
    answers[at + 1] = a.verdict;
    answers[at + 2] = a.vci;
    answers[at + 3] = a.d;
    answers[at + 4] = a.space;
    answers[at + 5] = a.departing;
}
