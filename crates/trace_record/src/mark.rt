// The mark with which every record of a trace begins: two letters.

ghost use Rattle.std.specs.Prelude.{◌≡◌, ◌↔◌};
ghost use Rattle.trace_record.specs.Trace.{MarkAt};
ghost use Rattle.trace_record.specs.Marks.{letters_of, is_head, record_long};

// GM, GR and GN begin a trace; the others stand behind. Each is numbered by its two letters, high octet first.
#[derive(Clone, Copy, PartialEq, Eq)]
pub enum Mark {
    Gm = 0x474d,
    Gr = 0x4752,
    Gn = 0x474e,
    Vo = 0x564f,
    Vs = 0x5653,
    Vx = 0x5658,
    Po = 0x504f,
    Px = 0x5058,
    Ca = 0x4341,
    Sl = 0x534c,
}

impl Mark {
    // The two letters, high octet first.
    pub fn letters(self) -> u16
        ensures { result ≡ letters_of self }
    {
        self as u16
    }

    // The mark that two letters are: none but the ten. Cells first: they are the most frequent.
    pub fn of_letters(letters: u16) -> Option<Mark>
        ensures { (m : Mark) → (result ≡ Some m) ↔ (letters ≡ letters_of m) }
    {
        Some(match letters {
            0x4341 => Mark::Ca,
            0x534c => Mark::Sl,
            0x564f => Mark::Vo,
            0x5658 => Mark::Vx,
            0x474d => Mark::Gm,
            0x4752 => Mark::Gr,
            0x474e => Mark::Gn,
            0x5653 => Mark::Vs,
            0x504f => Mark::Po,
            0x5058 => Mark::Px,
            _ => return None,
        })
    }

    // The mark that stands at a place: none where two octets don't, or where they are no mark's.
    pub fn at(trace: &[u8], at: usize) -> Option<Mark>
        ensures { (m : Mark) → (result ≡ Some m) ↔ MarkAt trace.now at m }
    {
        let [high, low, ..] = trace.get(at..)? else {
            return None;
        };
        Mark::of_letters(u16::from_be_bytes([*high, *low]))
    }

    // Whether a trace begins so: such a mark is first and only first.
    pub fn is_head(self) -> bool
        ensures { result ≡ is_head self }
    {
        matches!(self, Mark::Gm | Mark::Gr | Mark::Gn)
    }

    // The octets of a record, with its mark.
    pub fn record_long(self) -> usize
        ensures { result ≡ record_long self }
    {
        match self {
            Mark::Gm | Mark::Gr | Mark::Gn => 6,
            Mark::Vo | Mark::Po => 13,
            Mark::Vs => 23,
            Mark::Vx | Mark::Px | Mark::Sl => 4,
            Mark::Ca => 55,
        }
    }
}
