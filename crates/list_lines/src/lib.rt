// The lines of the listing, each put into a lent buffer at a place. Every function answers the place behind its text.
// A struct of buffer and place was tried: each contract then has two clauses more, that the buffer stays the same and as long.
#![tactic(auto)]

ghost use Rattle.std.specs.Prelude.{◌≡◌, [], ◌∷◌, ◌++◌, ◌+◌, ◌≤◌, length};
ghost use Rattle.list_lines.specs.Text.{decimal_of, word_of};
ghost use Rattle.list_lines.specs.Put.{Put};
ghost use Rattle.list_lines.specs.Lines.{setup_line, open_line, close_line, served_line, refused_line, slot_line, stop_line, end_line};
ghost use Rattle.list_lines.specs.Lines.{letter as Lines·letter, shows_vci};

use meaning::Answer;

// All of a text.
pub fn text(out: &mut [u8], at: usize, s: &[u8]) -> usize
    requires { at + length s.now ≤ length out.old }
    ensures { Put out.old at s.now out.new result }
{
    let end = at + s.len();
    out[at..end].copy_from_slice(s);
    end
}

// A number, without leading zeros, and the octet after it.
pub fn number(out: &mut [u8], at: usize, n: u32, after: u8) -> usize
    requires { at + 13 ≤ length out.old }
    ensures put { Put out.old at (decimal_of n ++ (after ∷ [])) out.new result }
    ensures upper_bound { result ≤ at + 13 }
{
    // a line's answer mostly has one digit, and often its other numbers too: stored at once, one takes 8 instructions in place of 26
    if n < 10 {
        out[at] = b'0' + n as u8;
        out[at + 1] = after;
        return at + 2;
    }
    let end = at + 1 + n.max(1).ilog10() as usize;
    itoa::write_digits(u64::from(n), out, end);
    out[end] = after;
    end + 1
}

// A number, or a dash where none is shown, and the octet after it.
fn word(out: &mut [u8], at: usize, n: Option<u32>, after: u8) -> usize
    requires { at + 13 ≤ length out.old }
    ensures put { Put out.old at (word_of n ++ (after ∷ [])) out.new result }
    ensures upper_bound { result ≤ at + 13 }
{
    match n {
        Some(n) => number(out, at, n, after),
        None => text(out, at, &[b'-', after]),
    }
}

// A verdict is a number here, as the answer that C is handed has it.
#[tactic(auto, unfolding(crate::specs::Lines::letter))]
fn letter(verdict: u16) -> u8
    ensures { result ≡ Lines·letter verdict }
{
    match verdict {
        1 => b'A',
        2 => b'X',
        3 => b'U',
        4 => b'H',
        5 => b'T',
        _ => b'.',
    }
}

// A VCI is shown unless nothing arrived or the header check dropped it.
#[tactic(auto, unfolding(crate::specs::Lines::shows_vci))]
fn shows_vci(verdict: u16) -> bool
    ensures { result ≡ shows_vci verdict }
{
    !matches!(verdict, 0 | 4)
}

// `t verdict VCI D out`
fn served_line(out: &mut [u8], at: usize, t: u32, a: Answer) -> usize
    requires { at + 64 ≤ length out.old }
    ensures put { Put out.old at (served_line t a.verdict a.vci a.d a.space a.departing) out.new result }
    ensures upper_bound { result ≤ at + 64 }
{
    let vci = shows_vci(a.verdict).then_some(u32::from(a.vci));
    let d = meaning::lets_in(a.verdict).then_some(u32::from(a.d));
    let departing = (a.space != 65535).then_some(u32::from(a.departing));
    let b = number(out, at, t, b' ');
    let c = text(out, b, &[letter(a.verdict), b' ']);
    let e = word(out, c, vci, b' ');
    let f = word(out, e, d, b' ');
    word(out, f, departing, b'\n')
}

// `slot number`, of a refused slot
fn refused_line(out: &mut [u8], at: usize, answer: u16) -> usize
    requires { at + 64 ≤ length out.old }
    ensures put { Put out.old at (refused_line answer) out.new result }
    ensures upper_bound { result ≤ at + 64 }
{
    let a = text(out, at, b"slot ");
    number(out, a, u32::from(answer), b'\n')
}

// The line of a slot: t as the slot left it, and its answer.
pub fn slot_line(out: &mut [u8], at: usize, t: u32, a: Answer) -> usize
    requires { at + 64 ≤ length out.old }
    ensures put { Put out.old at (slot_line t a) out.new result }
    ensures upper_bound { result ≤ at + 64 }
{
    // `Answer` is C's struct: its number tells a served slot from a refused one, and no Result does
    if a.number == 0 {
        served_line(out, at, t, a)
    } else {
        refused_line(out, at, a.number)
    }
}

// `setup N V number`
pub fn setup_line(out: &mut [u8], at: usize, n: u16, v: u16, answer: u16) -> usize
    requires { at + 64 ≤ length out.old }
    ensures put { Put out.old at (setup_line n v answer) out.new result }
    ensures upper_bound { result ≤ at + 64 }
{
    let a = text(out, at, b"setup ");
    let b = number(out, a, u32::from(n), b' ');
    let c = number(out, b, u32::from(v), b' ');
    number(out, c, u32::from(answer), b'\n')
}

// A word, a connection's number and the answer: the line of an opening or of a closing. A path that was refused with 4 is shown too, by
// a number that may be above 65,535.
fn connection_line(out: &mut [u8], at: usize, word: &[u8], connection: u32, answer: u16) -> usize
    requires { (length word.now ≤ 6) × (at + 64 ≤ length out.old) }
    ensures put { Put out.old at ((word.now ++ (decimal_of connection ++ (32 ∷ []))) ++ (decimal_of answer ++ (10 ∷ []))) out.new result }
    ensures upper_bound { result ≤ at + 64 }
{
    let a = text(out, at, word);
    let b = number(out, a, connection, b' ');
    number(out, b, u32::from(answer), b'\n')
}

// `open VCI number`, of a path with V + VPI
pub fn open_line(out: &mut [u8], at: usize, connection: u32, answer: u16) -> usize
    requires { at + 64 ≤ length out.old }
    ensures put { Put out.old at (open_line connection answer) out.new result }
    ensures upper_bound { result ≤ at + 64 }
{
    connection_line(out, at, b"open ", connection, answer)
}

// `close VCI number`, of a path with V + VPI
pub fn close_line(out: &mut [u8], at: usize, connection: u32, answer: u16) -> usize
    requires { at + 64 ≤ length out.old }
    ensures put { Put out.old at (close_line connection answer) out.new result }
    ensures upper_bound { result ≤ at + 64 }
{
    connection_line(out, at, b"close ", connection, answer)
}

// `stop 10 place`
pub fn stop_line(out: &mut [u8], at: usize, place: u32) -> usize
    requires { at + 64 ≤ length out.old }
    ensures put { Put out.old at (stop_line place) out.new result }
    ensures upper_bound { result ≤ at + 64 }
{
    let a = text(out, at, b"stop 10 ");
    number(out, a, place, b'\n')
}

// `end accepted excess unknown sent waiting`
pub fn end_line(
    out: &mut [u8],
    at: usize,
    accepted: u32,
    excess: u32,
    unknown: u32,
    sent: u32,
    waiting: u32,
) -> usize
    requires { at + 80 ≤ length out.old }
    ensures put { Put out.old at (end_line accepted excess unknown sent waiting) out.new result }
    ensures upper_bound { result ≤ at + 80 }
{
    let a = text(out, at, b"end ");
    let b = number(out, a, accepted, b' ');
    let c = number(out, b, excess, b' ');
    let d = number(out, c, unknown, b' ');
    let e = number(out, d, sent, b' ');
    number(out, e, waiting, b'\n')
}
