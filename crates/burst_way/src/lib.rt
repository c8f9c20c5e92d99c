// A policer on its way through a burst: its record in wide numbers, which index without being widened, and already in the
// slot to come, so that the slots of a run differ by one addition.
#![tactic(auto)]

ghost use Rattle.std.specs.Prelude.{◌≡◌, ◌+◌, ◌%◌, ◌<◌, ◌≤◌};
ghost use Rattle.meaning.specs.Plain.{when◌then◌else◌, ◌=?◌};
ghost use Rattle.meaning.specs.Numbers.{most_n, most_v, connections_in};
ghost use Rattle.leaf_header.specs.Name.{mask_for};
ghost use Rattle.slot_plan.specs.Plan.{clocked};
ghost use Rattle.burst_way.specs.Way.{way_with, one_back, slot_record, last_record, stepped_way, rounded_way, Fits};

use meaning::{PATHS, Record};

// t, T and rotation are those of the slot to come; mask cuts a header to VPI and VCI as the kind asks, so that a burst asks for the kind once.
#[derive(Clone, Copy)]
pub struct Way {
    pub n: usize,
    pub v: usize,
    pub t: u32,
    pub turn: usize,
    pub rotation: usize,
    pub free: usize,
    pub outhead: usize,
    pub outtail: usize,
    pub raw: u16,
    pub mode: u16,
    pub kind: u16,
    pub mask: u32,
    pub splitvci: u16,
    pub splitpath: u16,
}

// How many connections there are, the two that are none counted: rotation goes over all.
pub fn connections(v: usize) -> usize
    requires { v ≤ most_v }
    ensures { result ≡ connections_in v }
{
    v + usize::from(PATHS)
}

// One more, modulo n, without a division. `slot_steps::after` is the same of a record's narrow numbers: one function for both would have
// to be generic over their sum, and no plainer.
fn after(x: usize, n: usize) -> usize
    requires { x < n }
    ensures { result ≡ (x + 1) % n }
{
    round(x + 1, n)
}

// One less, modulo n.
// By one test: `checked_sub` with n - 1 for none would say no more.
fn one_back(x: usize, n: usize) -> usize
    requires { (x ≤ n) × (1 ≤ n) }
    ensures is { result ≡ one_back x n }
    ensures low { result < n }
{
    if x == 0 { n - 1 } else { x - 1 }
}

// A record's way: n is its N in a wide number.
pub fn way_of(r: Record, n: usize) -> Way
    requires { (n ≡ r.n) × (r.n ≤ most_n) × (r.v ≤ most_v) × (r.turn < r.n) × (r.rotation < connections_in r.v) }
    ensures slot { slot_record result ≡ clocked r }
    ensures last { last_record result ≡ r }
    ensures mask { result.mask ≡ mask_for result.kind }
{
    let v = usize::from(r.v);
    let t = r.t.wrapping_add(1);
    let turn = after(usize::from(r.turn), n);
    let all = connections(v);
    let rotation = after(usize::from(r.rotation), all);
    Way {
        n,
        v,
        t,
        turn,
        rotation,
        free: usize::from(r.free),
        outhead: usize::from(r.outhead),
        outtail: usize::from(r.outtail),
        raw: r.raw,
        mode: r.mode,
        kind: r.kind,
        mask: if r.kind == 0 { 16777215 } else { 268435455 },
        splitvci: r.splitvci,
        splitpath: r.splitpath,
    }
}

// The record before the slot to come.
pub fn record_of(w: Way) -> Record
    requires { Fits w }
    ensures { result ≡ last_record w }
{
    let t = w.t.wrapping_sub(1);
    let turn = one_back(w.turn, w.n);
    let all = connections(w.v);
    let rotation = one_back(w.rotation, all);
    Record {
        n: w.n as u16,
        v: w.v as u16,
        t,
        turn: turn as u16,
        rotation: rotation as u16,
        free: w.free as u16,
        outhead: w.outhead as u16,
        outtail: w.outtail as u16,
        raw: w.raw,
        mode: w.mode,
        kind: w.kind,
        splitvci: w.splitvci,
        splitpath: w.splitpath,
    }
}

// A slot is over. T and rotation may stand at N and V + 256: a run ends there.
pub fn stepped(w: Way) -> Way
    requires { (w.turn < w.n) × (w.rotation < connections_in w.v) × (w.n ≤ most_n) × (w.v ≤ most_v) }
    ensures { result ≡ stepped_way w }
{
    let t = w.t.wrapping_add(1);
    let turn = w.turn + 1;
    let rotation = w.rotation + 1;
    Way {
        t,
        turn,
        rotation,
        ..w
    }
}

// 0 for n.
// By one test, as its promise has it: `%` would divide.
fn round(x: usize, n: usize) -> usize
    ensures { result ≡ (when x =? n then 0 else x) }
{
    if x == n { 0 } else { x }
}

// T and rotation step round where they stand at N and V + 256.
pub fn rounded(w: Way) -> Way
    requires { w.v ≤ most_v }
    ensures { result ≡ rounded_way w }
{
    let turn = round(w.turn, w.n);
    let all = connections(w.v);
    let rotation = round(w.rotation, all);
    Way {
        turn,
        rotation,
        ..w
    }
}

// The same with another number of free spaces and another Output List.
pub fn with_ends(w: Way, free: usize, outhead: usize, outtail: usize) -> Way
    ensures { result ≡ way_with w w.t w.turn w.rotation free outhead outtail }
{
    Way {
        free,
        outhead,
        outtail,
        ..w
    }
}
