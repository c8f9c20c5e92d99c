// One slot: the header check of a raw policer comes in front, and the five steps go on with what it lets through.
#![tactic(auto)]

ghost use Rattle.std.specs.Prelude.{◌≡◌, true, false, ◌++◌, ◌≤◌, length, drop};
ghost use Rattle.base_hec.specs.Modes.{detection};
ghost use Rattle.base_hec.specs.Word.{octets_of};
ghost use Rattle.meaning.specs.Promises.{slot_promise};
ghost use Rattle.meaning.specs.Lent.{before, seen, served_after};
ghost use Rattle.call_slot.specs.Back.{is_checked, mode_after, is_dropped, back_served, back_from, unfit_in};

use base_hec::Checked;
use leaf_refusal::Refusal;
use meaning::{Answer, Record, Served, record_in_mode};

// A refused slot gives the record back as it came, in its old mode. "A dropped cell: verdict 4, H".
// Refused is told by the answer's number, which is C's: a `Result` of Served was tried, and goes through memory once more.
fn back_to(r: Record, c: Checked, s: Served) -> Served
    ensures { result ≡ back_served r (is_dropped c) s }
{
    if s.answer.number != 0 {
        return Served { ctl: r, ..s };
    }
    match c {
        Checked::Dropped => {
            let answer = Answer {
                verdict: 4,
                vci: 0,
                d: 0,
                ..s.answer
            };
            Served { answer, ..s }
        }
        _ => s,
    }
}

// A slot after the check, in the mode that it leads to, with the cell that it lets through.
fn slot_after(
    r: Record,
    c: Checked,
    cells: &mut [u8],
    links: &mut [u16],
    calendar: &mut [u16],
    words: &mut [u32],
    bits: &mut [u64],
    arrived: &mut [u32],
    cell: &[u8],
) -> Served
    ensures { served_after result cells links calendar words bits arrived ≡ back_from (before r cells links calendar words bits arrived) (mode_after c) (is_dropped c) cell.now }
{
    let k = record_in_mode(r, c.mode());
    let s = slot_steps::slot(k, cells, links, calendar, words, bits, arrived, cell);
    back_to(r, c, s)
}

// The header of a cell written anew, from its first four octets as one number and its fifth.
fn put_header(part: &mut [u8], head: u32, fifth: u8)
    requires { length part.old ≡ 53 }
    ensures { part.new ≡ octets_of head fifth ++ drop 5 part.old }
{
    part[..4].copy_from_slice(&head.to_be_bytes());
    part[4] = fifth;
}

// A slot with a mended cell. The lent cell stays as it is: what is stored, sent and shown is the copy with the new header.
fn mended_slot(
    r: Record,
    head: u32,
    fifth: u8,
    cells: &mut [u8],
    links: &mut [u16],
    calendar: &mut [u16],
    words: &mut [u32],
    bits: &mut [u64],
    arrived: &mut [u32],
    cell: &[u8],
) -> Served
    requires { length cell.now ≡ 53 }
    ensures { served_after result cells links calendar words bits arrived ≡ back_from (before r cells links calendar words bits arrived) detection false (octets_of head fifth ++ drop 5 cell.now) }
{
    let mut held = [0; 53];
    mem_cell::copy_cell(&mut held, cell);
    put_header(&mut held, head, fifth);
    let c = Checked::Mended { head, fifth };
    slot_after(r, c, cells, links, calendar, words, bits, arrived, &held)
}

// A slot of a policer that is raw, its mode in range, with a cell. A clean header is the common case.
// It promises what the whole call does, and so do `checked` and `slot`: each of the three answers a slot from its beginning.
fn raw_slot(
    r: Record,
    cells: &mut [u8],
    links: &mut [u16],
    calendar: &mut [u16],
    words: &mut [u32],
    bits: &mut [u64],
    arrived: &mut [u32],
    cell: &[u8],
) -> Served
    requires { (r.raw ≡ 1) × (r.mode ≤ 1) × (length cell.now ≡ 53) }
    ensures { slot_promise (before r cells links calendar words bits arrived) cell.now (served_after result cells links calendar words bits arrived) }
{
    let c = base_hec::check_cell(r.mode, cell);
    match c {
        Checked::Clean => slot_after(r, c, cells, links, calendar, words, bits, arrived, cell),
        Checked::Mended { head, fifth } => mended_slot(
            r, head, fifth, cells, links, calendar, words, bits, arrived, cell,
        ),
        Checked::Dropped => slot_after(
            r,
            c,
            cells,
            links,
            calendar,
            words,
            bits,
            arrived,
            &cell[0..0],
        ),
    }
}

// A raw or a mode that is neither 0 nor 1: 3, after 1 and 2.
fn unfit_slot(
    r: Record,
    cells: &[u8],
    links: &[u16],
    calendar: &[u16],
    words: &[u32],
    bits: &[u64],
    arrived: &[u32],
    cell: &[u8],
) -> Served
    requires { length cell.now ≡ 53 }
    ensures { result ≡ unfit_in (seen r cells links calendar words bits arrived) }
{
    match slot_steps::shape(r, cells, links, calendar, words, bits, arrived, cell) {
        Ok(()) => slot_depart::refuse_for(r, Refusal::Stored),
        Err(why) => slot_depart::refuse_for(r, why),
    }
}

// Whether the header check comes in front: the policer is raw, and a cell arrived.
// raw is the number in C's record: here it is only asked whether it is 0, and `checked` refuses one above 1.
pub fn is_checked(raw: u16, octets: usize) -> bool
    ensures { result ≡ is_checked raw octets }
{
    octets == 53 && raw != 0
}

// A slot with the check in front. It is not laid in place, unlike the few lines that choose it.
// raw and mode are the numbers in C's record, so any may come, and one above 1 is refused: `slot_promise` speaks of all of them.
pub fn checked(
    r: Record,
    cells: &mut [u8],
    links: &mut [u16],
    calendar: &mut [u16],
    words: &mut [u32],
    bits: &mut [u64],
    arrived: &mut [u32],
    cell: &[u8],
) -> Served
    requires { is_checked r.raw (length cell.now) ≡ true }
    ensures { slot_promise (before r cells links calendar words bits arrived) cell.now (served_after result cells links calendar words bits arrived) }
{
    if r.raw > 1 || r.mode > 1 {
        return unfit_slot(r, cells, links, calendar, words, bits, arrived, cell);
    }
    raw_slot(r, cells, links, calendar, words, bits, arrived, cell)
}

// "One slot, in this order", of a cell of 0 or 53 octets. raw is read only where a cell is lent, mode only where raw is 1.
// Which of two ways a slot goes is one test, is_checked: an `if` says it.
#[inline(always)]
pub fn slot(
    r: Record,
    cells: &mut [u8],
    links: &mut [u16],
    calendar: &mut [u16],
    words: &mut [u32],
    bits: &mut [u64],
    arrived: &mut [u32],
    cell: &[u8],
) -> Served
    ensures { slot_promise (before r cells links calendar words bits arrived) cell.now (served_after result cells links calendar words bits arrived) }
{
    if is_checked(r.raw, cell.len()) {
        return checked(r, cells, links, calendar, words, bits, arrived, cell);
    }
    slot_steps::slot(r, cells, links, calendar, words, bits, arrived, cell)
}
