// Refusal numbers and their order: a call tests for each of its refusals in turn, and gives the first.
#![tactic(auto)]

ghost use Rattle.std.specs.Prelude.{◌≡◌, ◌&&◌, ◌*◌};
ghost use Rattle.meaning.specs.Plain.{when◌then◌else◌, ◌=?◌};
ghost use Rattle.meaning.specs.Numbers.{ranges_hold, kind_in_range, octets, per_entry, words_in, bit_words, splits_hold};
ghost use Rattle.leaf_refusal.specs.Refusals.{number_of, given_number};

use meaning::{PATHS, WORDS_PER_CONNECTION};

// Why a call was refused, each with its number. (10, 14 and 17 are those of a trace's records, of writing and of salvage.)
#[derive(Clone, Copy, PartialEq, Eq)]
pub enum Refusal {
    Ranges = 1,
    Lengths = 2,
    Stored = 3,
    Name = 4,
    AlreadyOpen = 5,
    Rules = 6,
    NotOpen = 7,
    NotYet = 8,
    CellSize = 9,
    SecondBucket = 11,
    OutOfOrder = 12,
    LineKind = 13,
    Share = 15,
    Operator = 16,
}

impl From<Refusal> for u16 {
    ghost from_gives = { λ why number. number ≡ number_of why };

    fn from(why: Refusal) -> u16 {
        why as u16
    }
}

// A call's line for one refusal, with a `?` behind it.
pub fn refuse_unless(holds: bool, why: Refusal) -> Result<(), Refusal>
    ensures { result ≡ (when holds then Ok tt else Err why) }
{
    if holds { Ok(()) } else { Err(why) }
}

// The number that a call answers: 0 where nothing is refused.
pub fn given_number(judged: Result<(), Refusal>) -> u16
    ensures { result ≡ given_number judged }
{
    match judged {
        Ok(()) => 0,
        Err(why) => u16::from(why),
    }
}

// Refusal 1: "N cell spaces, 1 to 1,024"; "V, 2 to 1,024".
pub fn ranges_hold(n: u16, v: u16) -> bool
    ensures { result ≡ ranges_hold n v }
{
    (1..=1024).contains(&n) && (2..=1024).contains(&v)
}

// Refusal 1 too: a split VCI is 1 to V-1, a split path number 1 to 255.
pub fn splits_hold(v: u16, splitvci: u16, splitpath: u16) -> bool
    ensures { result ≡ splits_hold v splitvci splitpath }
{
    (1..v).contains(&splitvci) && (1..PATHS).contains(&splitpath)
}

// Refusal 13: the line kind is 0, UNI, or 1, NNI.
pub fn kind_fits(kind: u16) -> bool
    ensures { result ≡ kind_in_range kind }
{
    kind <= 1
}

// "7 × V words": with a second bucket and the path records after the V records, 12 × (V + 256).
pub fn words_in(v: u16) -> usize
    ensures { result ≡ words_in v }
{
    WORDS_PER_CONNECTION * (usize::from(v) + usize::from(PATHS))
}

// Refusal 2: "53 × N octets of cells; N links; 2 × N calendar numbers; 7 × V words", of which document 02 made 12 × (V + 256); and its
// words of bits, 16 of spaces and 16 of entries, and its N arrival slots.
pub fn lengths_hold(
    n: u16,
    v: u16,
    cells: usize,
    links: usize,
    calendar: usize,
    words: usize,
    bits: usize,
    arrived: usize,
) -> bool
    ensures { result ≡ (cells =? octets * n && links =? n && calendar =? per_entry * n && words =? words_in v && bits =? bit_words && arrived =? n) }
{
    let n = usize::from(n);
    cells == 53 * n
        && links == n
        && calendar == 2 * n
        && words == words_in(v)
        && bits == 32
        && arrived == n
}
