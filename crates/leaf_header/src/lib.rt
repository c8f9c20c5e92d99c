// The header of a cell, read as one number, and the connection that it names.
#![tactic(auto)]

ghost use Rattle.std.specs.Prelude.{◌≡◌, true, ℕ, ◌+◌, ◌/◌, ◌≤◌, ◌<◌, length};
ghost use Rattle.std.specs.Int.Bits.{bit_and};
ghost use Rattle.meaning.specs.Numbers.{most_v, connections_in, kind_in_range};
ghost use Rattle.meaning.specs.Header.{header_at};
ghost use Rattle.leaf_header.specs.Name.{name_at, word_at, name_in, Reads, number_for};

// The four octets from place `at` as one number: a header but for its HEC. Which bits of it are VPI and VCI depends on the kind.
pub fn head_at(s: &[u8], at: usize) -> u32
    requires { at + 4 ≤ length s.now }
    ensures is { result ≡ word_at s.now at }
    ensures names { (kind : ℕ) → kind_in_range kind ≡ true → name_in kind result ≡ name_at kind s.now at }
    ensures reads { (kind : ℕ) → Reads kind (header_at kind s.now at) (name_in kind result) }
{
    u32::from_be_bytes([s[at], s[at + 1], s[at + 2], s[at + 3]])
}

// VPI and VCI of that number, the mask telling the kind: whoever reads many headers of one kind tests it once.
pub fn name_by(head: u32, mask: u32) -> u32
    ensures { result ≡ bit_and (head / 16) mask }
{
    head / 16 & mask
}

// VPI and VCI of the header whose octet 1 stands at place `at`: four octets, without GFC at the UNI, without PTI and CLP. Where the
// kind is none, a name that no header has, so that `number_for` answers 0 of it as of any other.
pub fn name_at(s: &[u8], at: usize, kind: u16) -> u32
    requires { at + 4 ≤ length s.now }
    ensures name { result ≡ name_at kind s.now at }
    ensures reads { Reads kind (header_at kind s.now at) result }
{
    let w = head_at(s, at);
    match kind {
        0 => w / 16 % 16_777_216,
        1 => w / 16,
        _ => u32::MAX,
    }
}

// The connection that a name stands for: a VC by its VCI, a path by V + VPI; 0 for none.
pub fn number_for(v: u16, name: u32) -> u16
    requires { v ≤ most_v }
    ensures number { result ≡ number_for v name }
    ensures low { result < connections_in v }
{
    if name < u32::from(v) {
        return name as u16;
    }
    match name / 65536 {
        vpi @ 1..=255 => v + vpi as u16,
        _ => 0,
    }
}
