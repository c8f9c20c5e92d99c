// Writing a trace, one record at a time: each function writes its record at a place of a lent output, and answers where the next
// record starts. What the reader would refuse there is 10 at the place, a record that doesn't fit 14.
// Output and place stay apart, as `WritePromise` has them: a struct of both adds two clauses to each contract (see `list_lines`).
#![tactic(auto)]

ghost use Rattle.std.specs.Prelude.{◌≡◌, true, [], ◌∷◌, ◌++◌};
ghost use Rattle.trace_record.specs.Marks.{letters_of};
ghost use Rattle.trace_record.specs.Trace.{head_mark};
ghost use Rattle.text_meaning.specs.Shapes.{of16, of32};
ghost use Rattle.text_record.specs.Record.{Given, Later, record_octets, allowed_at};
ghost use Rattle.text_record.specs.Record.{GM as Record-as-GM, VO as Record-as-VO, VX as Record-as-VX, CA as Record-as-CA, SL as Record-as-SL};
ghost use Rattle.text_record.specs.Record.{VS as Record-as-VS, PO as Record-as-PO, PX as Record-as-PX};
ghost use Rattle.text_meaning.specs.Events.{opening_of, closing_of};
ghost use Rattle.meaning.specs.Words.{second_of};
ghost use Rattle.text_record.specs.Promises.{WritePromise};

use text_meaning::WriteError;
use trace_record::{Head, Mark};

// The octets of a record, where they fit at its place.
fn put(out: &mut [u8], at: usize, octets: &[u8]) -> Result<usize, WriteError>
    ensures { (g : Given) → record_octets g ≡ octets.now → allowed_at at g ≡ true → WritePromise out.old at g result out.new }
{
    if out.len() < octets.len() || out.len() - octets.len() < at {
        return Err(WriteError::TooShort { place: at });
    }
    Ok(list_lines::text(out, at, octets))
}

// The octets of a record that may stand at every place but the first.
fn put_later(out: &mut [u8], at: usize, octets: &[u8]) -> Result<usize, WriteError>
    ensures { (g : Given) → Later octets.now g → WritePromise out.old at g result out.new }
{
    if at == 0 {
        return Err(WriteError::Unreadable { place: at });
    }
    put(out, at, octets)
}

fn setup(n: u16, v: u16, head: Head) -> [u8; 6]
    ensures { result ≡ of16 (head_mark head) ++ (of16 n ++ of16 v) }
{
    let [mark1, mark2] = head.mark().letters().to_be_bytes();
    let [n1, n2] = n.to_be_bytes();
    let [v1, v2] = v.to_be_bytes();
    [mark1, mark2, n1, n2, v1, v2]
}

// GM, GR or GN: first and only first.
pub fn write_setup(
    out: &mut [u8],
    at: usize,
    n: u16,
    v: u16,
    head: Head,
) -> Result<usize, WriteError>
    ensures { WritePromise out.old at (Record-as-GM n v head) result out.new }
{
    if at != 0 {
        return Err(WriteError::Unreadable { place: at });
    }
    put(out, at, &setup(n, v, head))
}

// An opening, whatever its mark: of a VC or of a path.
fn opening(mark: Mark, connection: u16, m: u8, f: u32, c: u32) -> [u8; 13]
    ensures { result ≡ opening_of (letters_of mark) connection m f c }
{
    let [mark1, mark2] = mark.letters().to_be_bytes();
    let [i1, i2] = connection.to_be_bytes();
    let [f1, f2, f3, f4] = f.to_be_bytes();
    let [c1, c2, c3, c4] = c.to_be_bytes();
    [mark1, mark2, i1, i2, m, f1, f2, f3, f4, c1, c2, c3, c4]
}

// The octets of a mark and one number: a closing, whatever its mark, or a pause.
pub fn numbered(mark: Mark, number: u16) -> [u8; 4]
    ensures { result ≡ closing_of (letters_of mark) number }
{
    let [mark1, mark2] = mark.letters().to_be_bytes();
    let [n1, n2] = number.to_be_bytes();
    [mark1, mark2, n1, n2]
}

pub fn write_open(
    out: &mut [u8],
    at: usize,
    vci: u16,
    m: u8,
    f: u32,
    c: u32,
) -> Result<usize, WriteError>
    ensures { WritePromise out.old at (Record-as-VO vci m f c) result out.new }
{
    put_later(out, at, &opening(Mark::Vo, vci, m, f, c))
}

pub fn write_open_path(
    out: &mut [u8],
    at: usize,
    vpi: u16,
    m: u8,
    f: u32,
    c: u32,
) -> Result<usize, WriteError>
    ensures { WritePromise out.old at (Record-as-PO vpi m f c) result out.new }
{
    put_later(out, at, &opening(Mark::Po, vpi, m, f, c))
}

// The second bucket and the flag.
fn second(m: u8, f: u32, c: u32, tag: u8) -> [u8; 10]
    ensures { result ≡ m ∷ (of32 f ++ (of32 c ++ (tag ∷ []))) }
{
    let [f1, f2, f3, f4] = f.to_be_bytes();
    let [c1, c2, c3, c4] = c.to_be_bytes();
    [m, f1, f2, f3, f4, c1, c2, c3, c4, tag]
}

// A VO with the second bucket and the flag behind it.
pub fn write_sustain(
    out: &mut [u8],
    at: usize,
    vci: u16,
    m: u8,
    f: u32,
    c: u32,
    m2: u8,
    f2: u32,
    c2: u32,
    tag: u8,
) -> Result<usize, WriteError>
    ensures { WritePromise out.old at (Record-as-VS vci m f c (second_of m2 f2 c2 tag)) result out.new }
{
    let mut octets = [0u8; 23];
    octets[..13].copy_from_slice(&opening(Mark::Vs, vci, m, f, c));
    octets[13..].copy_from_slice(&second(m2, f2, c2, tag));
    put_later(out, at, &octets)
}

pub fn write_close(out: &mut [u8], at: usize, vci: u16) -> Result<usize, WriteError>
    ensures { WritePromise out.old at (Record-as-VX vci) result out.new }
{
    put_later(out, at, &numbered(Mark::Vx, vci))
}

pub fn write_close_path(out: &mut [u8], at: usize, vpi: u16) -> Result<usize, WriteError>
    ensures { WritePromise out.old at (Record-as-PX vpi) result out.new }
{
    put_later(out, at, &numbered(Mark::Px, vpi))
}

// A cell of another length than 53 is no record: nothing that the reader reads would be it.
pub fn write_cell(out: &mut [u8], at: usize, cell: &[u8]) -> Result<usize, WriteError>
    ensures { WritePromise out.old at (Record-as-CA cell.now) result out.new }
{
    if cell.len() != 53 {
        return Err(WriteError::Unreadable { place: at });
    }
    let mut octets = [0u8; 55];
    octets[..2].copy_from_slice(&Mark::Ca.letters().to_be_bytes());
    octets[2..].copy_from_slice(cell);
    put_later(out, at, &octets)
}

// A pause of one record: at least one slot.
pub fn write_pause(out: &mut [u8], at: usize, slots: u16) -> Result<usize, WriteError>
    ensures { WritePromise out.old at (Record-as-SL slots) result out.new }
{
    if slots == 0 {
        return Err(WriteError::Unreadable { place: at });
    }
    put_later(out, at, &numbered(Mark::Sl, slots))
}
