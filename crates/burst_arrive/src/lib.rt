// The seat of a cell that is let in on a likely way. What is out of range leaves the likely way with everything as it came, and the slot
// is then served as the call has it: so nothing here refuses.
#![tactic(auto)]

ghost use Rattle.std.specs.Prelude.{◌≡◌};
ghost use Rattle.slot_plan.specs.Plan.{seat_now};
ghost use Rattle.burst_way.specs.Way.{slot_record};
ghost use Rattle.burst_arrive.specs.Arriving.{spot_of, MaySeat};

use burst_way::Way;

// Where a cell that is let in goes: its space x; D and its connection; its entry e and that entry's head and tail.
#[derive(Clone, Copy)]
pub struct Spot {
    pub x: usize,
    pub d: usize,
    pub vci: usize,
    pub e: usize,
    pub head: usize,
    pub tail: usize,
}

// The seat of a cell that is let in, in the lowest free space. The words fit, as the caller knows, so no bit is counted here.
// Its entry is (T+D) modulo N, which one comparison gives, and `%` by a division.
pub fn seat_of(w: Way, vci: usize, d: usize, calendar: &[u16], bits: &[u64]) -> Option<Spot>
    requires { MaySeat w calendar bits d }
    ensures { result ≡ spot_of vci d (seat_now (slot_record w) d calendar.now bits.now) }
{
    if w.free == 0 {
        return None;
    }
    let x = usize::from(mem_bits::lowest(bits));
    let far = w.turn + d;
    let e = if far < w.n { far } else { far - w.n };
    let head = calendar[2 * e];
    let tail = calendar[2 * e + 1];
    if !mem_lists::pair(w.n as u16, head, tail) {
        return None;
    }
    Some(Spot {
        x,
        d,
        vci,
        e,
        head: usize::from(head),
        tail: usize::from(tail),
    })
}
