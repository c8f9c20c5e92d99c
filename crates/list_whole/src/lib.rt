// How a run goes through a trace stands in specs/, and that its steps write the listing in proofs/; these structs pass by
// value.
#![tactic(auto)]

use list_meaning::Tally;
use meaning::Record;

// Where a run stands: the control record, the place of the next record, the slots left of a pause, whether the end line
// is written, and the counts.
#[derive(Clone, Copy)]
pub struct Run {
    pub ctl: Record,
    pub at: u32,
    pub left: u16,
    pub done: bool,
    pub tally: Tally,
}

// What a fill leaves: the run, and how many octets of the buffer are used.
#[derive(Clone, Copy)]
pub struct Filled {
    pub run: Run,
    pub used: usize,
}

// N and V for which memory is to be lent.
// No Option: `Fill.sizes_at` has 0 and 0 where a trace names none, and `LentFor` says what is lent for these as for any others.
#[derive(Clone, Copy)]
pub struct Sizes {
    pub n: u16,
    pub v: u16,
}

// The memory lent to a run: its six parts travel together.
#[derive(Drop)]
pub struct Memory<'a> {
    pub cells: &'a mut [u8],
    pub links: &'a mut [u16],
    pub calendar: &'a mut [u16],
    pub words: &'a mut [u32],
    pub bits: &'a mut [u64],
    pub arrived: &'a mut [u32],
}
