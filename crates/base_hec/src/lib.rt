// Header error control by ITU-T I.432, on numbers: the first four octets of a header as one, the fifth as another.
#![tactic(auto)]

ghost use Rattle.std.specs.Prelude.{◌≡◌, ◌≤◌, ◌<◌, ℕ, List, length, get_or};
ghost use Rattle.base_hec.specs.Check.{check_of, head_of};
ghost use Rattle.base_hec.specs.Modes.{checked};
ghost use Rattle.base_hec.specs.Word.{mended_word, checked_word, arriving_of};

mod syndromes;

// What the check answers: the header is clean; or a bit was wrong, and this is the header as mended; or the cell is dropped.
#[derive(Clone, Copy)]
pub enum Checked {
    Clean,
    Mended { head: u32, fifth: u8 },
    Dropped,
}

impl Checked {
    // The mode from now on: 0, correction, after a clean header, and 1, detection, after any error.
    pub fn mode(self) -> u16
        ensures { (cell : List ℕ) → result ≡ (arriving_of self cell).mode }
    {
        match self {
            Checked::Clean => 0,
            Checked::Mended { .. } => 1,
            Checked::Dropped => 1,
        }
    }
}

// The octet 5 that belongs to the first four. By shifts, 22 instructions and no memory: a table would be copied on each call.
// 1 / (x^8 + x^2 + x + 1) is x^-8 (1 + y) (1 + y^2) (1 + y^4), y being x^-6 + x^-7 + x^-8; what falls below x^0 never
// comes back, so q is the quotient. The remainder is the low octet of q times the generator.
pub fn check_of(head: u32) -> u8
    ensures { result ≡ check_of head }
{
    let w = u64::from(head);
    let a = w ^ ((w ^ (w << 1) ^ (w << 2)) >> 8);
    let b = a ^ ((a ^ (a << 2) ^ (a << 4)) >> 16);
    let q = b ^ ((b ^ (b << 4)) >> 28);
    let low = (q ^ (q << 1) ^ (q << 2)) % 256;
    low as u8 ^ 0x55
}

// The header with one bit changed.
// bit is a place of forty, and none stands for no bit: an enum of head and octet 5 would only split one number in two.
pub fn mended(bit: u8, head: u32, fifth: u8) -> Checked
    requires { bit < 40 }
    ensures { result ≡ mended_word bit head fifth }
{
    if bit < 32 {
        let head = head ^ (1 << (31 - bit));
        Checked::Mended { head, fifth }
    } else {
        let fifth = fifth ^ (1 << (39 - bit));
        Checked::Mended { head, fifth }
    }
}

// The check of one header. A clean one is the common case, and needs no table. One with an error is mended where one bit is wrong and
// the mode is correction, and else dropped.
pub fn check(mode: u16, head: u32, fifth: u8) -> Checked
    ensures { result ≡ checked_word mode head fifth }
{
    let syndrome = check_of(head) ^ fifth;
    if syndrome == 0 {
        return Checked::Clean;
    }
    match syndromes::named_bit(syndrome) {
        Some(bit) if mode == 0 => mended(bit, head, fifth),
        _ => Checked::Dropped,
    }
}

// The first four octets as one number, octet 1 highest.
pub fn head_of(cell: &[u8]) -> u32
    requires { 4 ≤ length cell.now }
    ensures { result ≡ head_of cell.now }
{
    u32::from_be_bytes([cell[0], cell[1], cell[2], cell[3]])
}

// The check of a lent cell, which stays as it is: what is let through is the header of the answer and the lent payload.
pub fn check_cell(mode: u16, cell: &[u8]) -> Checked
    requires { 5 ≤ length cell.now }
    ensures numbers { result ≡ checked_word mode (head_of cell.now) (get_or cell.now 4 0) }
    ensures octets { arriving_of result cell.now ≡ checked mode cell.now }
{
    check(mode, head_of(cell), cell[4])
}
