// What stands behind a line's mark: a record's fields, read and put as octets behind the mark's own, or a count of slots. Each
// function is lent what is left of the text, and answers what it found with what is left then; or None.
ghost use Rattle.std.specs.Prelude.{◌≡◌, ◌≢◌, ◌+◌, ◌≤◌, ◌<◌, length, take, IfSome};
ghost use Rattle.text_meaning.specs.Shapes.{cell, wide as Shapes·wide, top as Shapes·top};
ghost use Rattle.text_meaning.specs.Grammar.{number_of, digits as Grammar·digits, within, number as Grammar·number, part, tells};
ghost use Rattle.text_meaning.specs.Grammar.{expect as Grammar·expect, hexes as Grammar·hexes, field_at, fields_at, slots_at};
ghost use Rattle.text_meaning.specs.Events.{pause};
ghost use Rattle.text_line.specs.Found.{Finds, digit_at, nibble_at, field_named, fields_named, span};

// A number of 8, 16 or 32 bits, or the 53 octets of a cell.
#[derive(Clone, Copy)]
pub(crate) enum Field {
    N8,
    N16,
    N32,
    Cell,
}

impl Field {
    // The octets of a field.
    fn wide(self) -> usize
        ensures { result ≡ Shapes·wide (field_named self) }
    {
        match self {
            Field::N8 => 1,
            Field::N16 => 2,
            Field::N32 => 4,
            Field::Cell => 53,
        }
    }

    // The largest number that fits a field; a cell is none.
    fn top(self) -> u64
        ensures { result ≡ Shapes·top (field_named self) }
    {
        match self {
            Field::N8 => 255,
            Field::N16 => 65535,
            Field::N32 => 4294967295,
            Field::Cell => 0,
        }
    }
}

fn digit(text: &[u8]) -> Option<(u64, &[u8])>
    ensures found { Finds (λ d. number_of d.0 d.1.now) result (digit_at text.now) }
    ensures on { IfSome result (λ d. (d.0 < 10) × (length d.1.now < length text.now)) }
{
    match text {
        [x @ b'0'..=b'9', rest @ ..] => Some((u64::from(*x - b'0'), rest)),
        _ => None,
    }
}

// The digits that follow. The value stops as soon as it is above its bound, so that it can't wrap.
fn digits(text: &[u8], first: u64, most: u64) -> Option<(u64, &[u8])>
    requires { (first < 10) × (most < 4294967296) }
    ensures found { Finds (λ n. number_of n.0 n.1.now) result (within most (Grammar·digits first text.now)) }
    ensures on { IfSome result (λ n. (n.0 ≤ most) × (length n.1.now ≤ length text.now)) }
{
    let mut v = first;
    let mut rest = text;
    while v <= most {
        let Some((d, after)) = digit(rest) else {
            return Some((v, rest));
        };
        v = v * 10 + d;
        rest = after;
    }
    None
}

// A decimal number of at most `most`, without leading zeros.
fn number(text: &[u8], most: u64) -> Option<(u64, &[u8])>
    requires { most < 4294967296 }
    ensures found { Finds (λ n. number_of n.0 n.1.now) result (Grammar·number most text.now) }
    ensures on { IfSome result (λ n. (n.0 ≤ most) × (length n.1.now < length text.now)) }
{
    let (first, rest) = digit(text)?;
    if first == 0 {
        return Some((0, rest));
    }
    digits(rest, first, most)
}

// The very octet.
fn expect(text: &[u8], x: u8) -> Option<&[u8]>
    ensures found { Finds (λ s. s.now) result (Grammar·expect x text.now) }
    ensures on { IfSome result (λ s. length s.now < length text.now) }
{
    match text {
        [y, rest @ ..] if *y == x => Some(rest),
        _ => None,
    }
}

// A hex digit of either case.
fn nibble(text: &[u8]) -> Option<(u8, &[u8])>
    ensures found { Finds (λ d. number_of d.0 d.1.now) result (nibble_at text.now) }
    ensures on { IfSome result (λ d. (d.0 < 16) × (length d.1.now < length text.now)) }
{
    match text {
        [x @ b'0'..=b'9', rest @ ..] => Some((*x - b'0', rest)),
        [x @ b'A'..=b'F', rest @ ..] => Some((*x - b'A' + 10, rest)),
        [x @ b'a'..=b'f', rest @ ..] => Some((*x - b'a' + 10, rest)),
        _ => None,
    }
}

// 53 octets, two hex digits each.
fn hexes<'a>(text: &'a [u8], rec: &mut [u8], at: usize) -> Option<&'a [u8]>
    requires { at + 53 ≤ length rec.old }
    ensures found { Finds (λ s. part (take (at + 53) rec.new) s.now) result (Grammar·hexes 53 (take at rec.old) text.now) }
    ensures on { IfSome result (λ s. length s.now < length text.now) }
{
    let mut rest = text;
    for k in at..at + 53 {
        let (high, after) = nibble(rest)?;
        let (low, after) = nibble(after)?;
        rec[k] = high * 16 + low;
        rest = after;
    }
    Some(rest)
}

// A number that fits its field, high octet first behind the octets before it.
// Each width has a store of its own: a copy as long as the field says is a call for each number, and `scribe` then takes 30.3
// million instructions for 390 KB of lines `VS 1 0 0 0 0 0 0 0`, in place of 22.1 million.
fn number_into<'a>(text: &'a [u8], kind: Field, rec: &mut [u8], at: usize) -> Option<&'a [u8]>
    requires number { field_named kind ≢ cell }
    requires room { at + Shapes·wide (field_named kind) ≤ length rec.old }
    ensures found { Finds (λ s. part (take (at + Shapes·wide (field_named kind)) rec.new) s.now) result (field_at (field_named kind) (take at rec.old) text.now) }
    ensures on { IfSome result (λ s. length s.now < length text.now) }
{
    let (n, rest) = number(text, kind.top())?;
    match kind {
        Field::N8 => rec[at] = n as u8,
        Field::N16 => rec[at..at + 2].copy_from_slice(&(n as u16).to_be_bytes()),
        _ => rec[at..at + 4].copy_from_slice(&(n as u32).to_be_bytes()),
    }
    Some(rest)
}

fn field_into<'a>(text: &'a [u8], kind: Field, rec: &mut [u8], at: usize) -> Option<&'a [u8]>
    requires { at + Shapes·wide (field_named kind) ≤ length rec.old }
    ensures found { Finds (λ s. part (take (at + Shapes·wide (field_named kind)) rec.new) s.now) result (field_at (field_named kind) (take at rec.old) text.now) }
    ensures on { IfSome result (λ s. length s.now < length text.now) }
{
    match kind {
        Field::Cell => hexes(text, rec, at),
        _ => number_into(text, kind, rec, at),
    }
}

// The fields of a shape, a space before each and a line feed after the last, put behind the mark's two octets; and where they end.
pub(crate) fn fields<'a>(
    text: &'a [u8],
    kinds: &[Field],
    rec: &mut [u8],
) -> Option<(usize, &'a [u8])>
    requires { 2 + span (fields_named kinds.now) ≤ length rec.old }
    ensures found { Finds (λ r. part (take r.0 rec.new) r.1.now) result (fields_at (fields_named kinds.now) (take 2 rec.old) text.now) }
    ensures on { IfSome result (λ r. (r.0 ≡ 2 + span (fields_named kinds.now)) × (length r.1.now < length text.now)) }
{
    let mut at = 2usize;
    let mut rest = text;
    for kind in kinds {
        let after = expect(rest, b' ')?;
        rest = field_into(after, *kind, rec, at)?;
        at += kind.wide();
    }
    let after = expect(rest, b'\n')?;
    Some((at, after))
}

// A count of slots, at least 1.
#[tactic(auto, unfolding(text_meaning::specs::Grammar::slots_at))]
pub(crate) fn slots(text: &[u8]) -> Option<(u32, &[u8])>
    ensures found { Finds (λ n. tells (pause n.0) n.1.now) result (slots_at text.now) }
    ensures on { IfSome result (λ n. length n.1.now < length text.now) }
{
    let rest = expect(text, b' ')?;
    let (count, rest) = number(rest, 4294967295)?;
    if count == 0 {
        return None;
    }
    let rest = expect(rest, b'\n')?;
    Some((count as u32, rest))
}
