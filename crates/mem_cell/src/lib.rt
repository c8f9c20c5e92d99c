// "The cell is written into its own 53 octets of the cell memory, and every other octet keeps its value."
#![tactic(auto)]

ghost use Rattle.std.specs.Prelude.{◌≡◌, ◌+◌, ◌*◌, ◌/◌, ◌≤◌, length};
ghost use Rattle.meaning.specs.Numbers.{cell_start, octets};
ghost use Rattle.meaning.specs.State.{write_cell};
ghost use Rattle.meaning.specs.Header.{tagged_cell};

// Through a local array, so that all octets are loaded before the first is stored: wide moves. By the library's copy_from_slice,
// which first asks whether the two overlap, each copy would be a call, and some forty instructions more.
pub fn copy_cell(part: &mut [u8], cell: &[u8])
    requires { (length part.old ≡ 53) × (length cell.now ≡ 53) }
    ensures { part.new ≡ cell.now }
{
    let mut held = [0; 53];
    for i in 0..53 {
        held[i] = cell[i];
    }
    for k in 0..53 {
        part[k] = held[k];
    }
}

// Octet 4 with CLP 1.
fn with_clp(four: u8) -> u8
    ensures { result ≡ four / 2 * 2 + 1 }
{
    four / 2 * 2 + 1
}

// The same of a tagged cell: "CLP becomes 1, octet 5 is recomputed". The low octet of the head is octet 4.
fn copy_tagged(part: &mut [u8], cell: &[u8])
    requires { (length part.old ≡ 53) × (length cell.now ≡ 53) }
    ensures { part.new ≡ tagged_cell cell.now }
{
    copy_cell(part, cell);
    let head = base_hec::head_of(cell) / 2 * 2 + 1;
    part[3] = with_clp(cell[3]);
    part[4] = base_hec::check_of(head);
}

// Where a space's octets start in the cell memory.
fn start(space: u16) -> usize
    ensures { result ≡ cell_start space }
{
    53 * usize::from(space)
}

// The space's part of the lent cell memory, starting at 53 times its number, is lent on.
pub fn put_cell(cells: &mut [u8], space: u16, cell: &[u8])
    requires { (cell_start space + octets ≤ length cells.old) × (length cell.now ≡ 53) }
    ensures { cells.new ≡ write_cell cells.old space cell.now }
{
    let a = start(space);
    let e = a + 53;
    copy_cell(&mut cells[a..e], cell);
}

// A tagged cell into its space: another copy, in as few lines as one that is told which.
pub fn put_tagged(cells: &mut [u8], space: u16, cell: &[u8])
    requires { (cell_start space + octets ≤ length cells.old) × (length cell.now ≡ 53) }
    ensures { cells.new ≡ write_cell cells.old space (tagged_cell cell.now) }
{
    let a = start(space);
    let e = a + 53;
    copy_tagged(&mut cells[a..e], cell);
}
