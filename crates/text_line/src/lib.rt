// One line of a text that says a trace: a record's octets, or a count of slots.
#![tactic(auto)]

ghost use Rattle.std.specs.Prelude.{◌≡◌, ◌≤◌, ◌<◌, length, IfSome};
ghost use Rattle.trace_record.specs.Marks.{letters_of};
ghost use Rattle.text_meaning.specs.Shapes.{shape_of};
ghost use Rattle.text_meaning.specs.Grammar.{tells, line};
ghost use Rattle.text_meaning.specs.Writing.{line_at};
ghost use Rattle.list_lines.specs.Put.{puts};
ghost use Rattle.text_line.specs.Found.{Finds, shape_named, ShapeFits, event_found, LongWithin, line_found, LineWithin, record_in};

mod field;

use field::Field;
use trace_record::Mark;

// What a line says: a record of so many octets, or a pause of so many slots.
#[derive(Clone, Copy)]
pub enum Line {
    Record { long: usize },
    Pause { slots: u32 },
}

// What stands behind a mark: a record's fields, or a count of slots.
#[derive(Clone, Copy)]
enum Shape {
    Fields(&'static [Field]),
    Slots,
}

const TWO_NUMBERS: &[Field] = &[Field::N16, Field::N16];

const OPENING: &[Field] = &[Field::N16, Field::N8, Field::N32, Field::N32];

const SUSTAINED: &[Field] = &[
    Field::N16,
    Field::N8,
    Field::N32,
    Field::N32,
    Field::N8,
    Field::N32,
    Field::N32,
    Field::N8,
];

const CLOSING: &[Field] = &[Field::N16];

const ONE_CELL: &[Field] = &[Field::Cell];

// The shape of a mark: GM, GR and GN first and only first.
#[tactic(auto, unfolding(text_meaning::specs::Shapes::find, crate::specs::Found::span))]
fn shape_of(first: bool, mark: Mark) -> Option<Shape>
    ensures found { Finds (λ x. shape_named x) result (shape_of first (letters_of mark)) }
    ensures fits { IfSome result (λ x. ShapeFits x) }
{
    match (first, mark) {
        (true, Mark::Gm | Mark::Gr | Mark::Gn) => Some(Shape::Fields(TWO_NUMBERS)),
        (false, Mark::Ca) => Some(Shape::Fields(ONE_CELL)),
        (false, Mark::Sl) => Some(Shape::Slots),
        (false, Mark::Vo | Mark::Po) => Some(Shape::Fields(OPENING)),
        (false, Mark::Vx | Mark::Px) => Some(Shape::Fields(CLOSING)),
        (false, Mark::Vs) => Some(Shape::Fields(SUSTAINED)),
        _ => None,
    }
}

// The line that a text begins with, its record's octets at the start of `rec`. Of a line that isn't good some may stand there.
fn line_into<'a>(text: &'a [u8], first: bool, rec: &mut [u8]) -> Option<(Line, &'a [u8])>
    requires { 55 ≤ length rec.old }
    ensures found { Finds (λ l. tells (event_found rec.new l.0) l.1.now) result (line first text.now) }
    ensures on { IfSome result (λ l. (length l.1.now < length text.now) × LongWithin l.0) }
{
    let [high, low, rest @ ..] = text else {
        return None;
    };
    let mark = Mark::of_letters(u16::from_be_bytes([*high, *low]))?;
    match shape_of(first, mark)? {
        Shape::Slots => {
            let (slots, rest) = field::slots(rest)?;
            Some((Line::Pause { slots }, rest))
        }
        Shape::Fields(fields) => {
            rec[0] = *high;
            rec[1] = *low;
            let (long, rest) = field::fields(rest, fields, rec)?;
            Some((Line::Record { long }, rest))
        }
    }
}

// The line that starts at a place, and the place behind it. Its record's octets are put at the start of `rec`, which has room for
// the longest; a pause, or where no good line stands, changes no octet of it.
pub fn line_at(text: &[u8], p: usize, rec: &mut [u8]) -> Option<(Line, usize)>
    requires { 55 ≤ length rec.old }
    ensures result_after { line_found rec.new result ≡ line_at text.now p }
    ensures line_within { LineWithin p (length text.now) result }
    ensures rec_after { rec.new ≡ puts rec.old 0 (record_in (line_at text.now p)) }
{
    let here = text.get(p..)?;
    let mut own = [0u8; 55];
    let (line, rest) = line_into(here, p == 0, &mut own)?;
    let next = text.len() - rest.len();
    if let Line::Record { long } = line {
        list_lines::text(rec, 0, &own[..long]);
    }
    Some((line, next))
}
