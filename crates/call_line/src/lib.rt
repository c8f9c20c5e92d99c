// The cell on the line: a part of the cell memory or of the idle cell, which nothing copies.
#![tactic(auto)]

ghost use Rattle.std.specs.Prelude.{◌≡◌, length};
ghost use Rattle.meaning.specs.Line.{line_part};
ghost use Rattle.meaning.specs.Promises.{LinePromise};
ghost use Rattle.call_line.specs.Placed.{place_of};

// Where a part lies: 1 for the idle cell and 0 for the cell memory, its first octet there, how many octets. Numbers, since it goes
// out to C (`clurimoon_line`).
#[repr(C)]
#[derive(Clone, Copy)]
pub struct Place {
    pub from_idle: u16,
    pub start: usize,
    pub length: usize,
}

// "an empty part of the idle cell"
fn nowhere() -> Place
    ensures { result ≡ record { from_idle = 1; start = 0; length = 0 } }
{
    Place {
        from_idle: 1,
        start: 0,
        length: 0,
    }
}

// The part to show, of a cell memory and an idle cell of these lengths, for a departing space of this number.
pub fn line_part(cells: usize, idle: usize, number: u16) -> Place
    ensures { result ≡ place_of (line_part cells idle number) }
{
    let n = cells / 53;
    if cells % 53 != 0 || n < 1 || n > 1024 || idle != 53 {
        return nowhere();
    }
    let space = usize::from(number);
    if space < n {
        return Place {
            from_idle: 0,
            start: 53 * space,
            length: 53,
        };
    }
    if number == 65535 {
        return Place {
            from_idle: 1,
            start: 0,
            length: 53,
        };
    }
    nowhere()
}

// The part itself.
pub fn line<'a>(cells: &'a [u8], idle: &'a [u8], number: u16) -> &'a [u8]
    ensures { LinePromise cells.now idle.now cells.entry.ref_ptr idle.entry.ref_ptr number result.now result.ref_ptr }
{
    let p = line_part(cells.len(), idle.len(), number);
    let end = p.start + p.length;
    if p.from_idle == 1 {
        &idle[p.start..end]
    } else {
        &cells[p.start..end]
    }
}
