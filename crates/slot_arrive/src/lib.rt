// Steps 2 and 3 of a slot, up to the words of connections: what is read and decided, before anything is written.
#![tactic(auto)]

ghost use Rattle.std.specs.Prelude.{◌≡◌, true, false, ◌%◌, ◌≤◌, ◌<◌, length, get_or};
ghost use Rattle.meaning.specs.Numbers.{nothing, excess, unknown, waiting_place, most_v, words_in};
ghost use Rattle.meaning.specs.State.{HasConnection};
ghost use Rattle.meaning.specs.Header.{header_at, clp_in};
ghost use Rattle.meaning.specs.Bucket.{with_s};
ghost use Rattle.meaning.specs.Words.{connection_at};
ghost use Rattle.leaf_header.specs.Name.{Reads};
ghost use Rattle.slot_arrive.specs.Arrival.{connection_now, brought_of, judged_as, judged_connection, cell_name, judged_name, fallen, filled, one_less};
ghost use Rattle.slot_arrive.specs.Both.{Peaked, Within, SecondIn, brought_both, let_in_as, judged_peak, judged_second, judged_both};

use meaning::{
    AT_C, AT_F, AT_LAST, AT_M, AT_S, AT_SECOND_C, AT_SECOND_F, AT_SECOND_M, AT_SECOND_S, AT_TAG,
    AT_WAITING, WORDS_PER_CONNECTION,
};

// What step 2 has to write, with the clock: S of a connection's bucket as it has fallen, and that of its second bucket.
#[derive(Clone, Copy)]
pub struct Fall {
    pub s: u32,
    pub second: u32,
}

// What step 3 found.
#[derive(Clone, Copy)]
pub struct Judged {
    pub verdict: u16,
    pub vci: u16,
    pub d: u16,
    pub s: u32,
    pub waiting: u32,
    pub second: u32,
}

// S of a connection's bucket as it has fallen to slot t.
pub fn peak_now(words: &[u32], vci: u16, t: u32) -> u32
    requires { (HasConnection vci words.now) × ((connection_at words.now vci).bucket.m ≤ 15) }
    ensures { result ≡ (connection_now t (connection_at words.now vci)).bucket.S }
{
    let b = WORDS_PER_CONNECTION * (vci as usize);
    leaf_bucket::fallen_to(words[b + AT_S], words[b + AT_M], words[b + AT_LAST], t)
}

// The same of its second bucket.
fn second_now(words: &[u32], vci: u16, t: u32) -> u32
    requires { (HasConnection vci words.now) × ((connection_at words.now vci).second.m ≤ 15) }
    ensures { result ≡ (connection_now t (connection_at words.now vci)).second.S }
{
    let b = WORDS_PER_CONNECTION * (vci as usize);
    leaf_bucket::fallen_to(
        words[b + AT_SECOND_S],
        words[b + AT_SECOND_M],
        words[b + AT_LAST],
        t,
    )
}

// Step 2 of an open connection that has a second bucket; None where that is out of its range.
pub fn bring_both(words: &[u32], vci: u16, t: u32, s: u32) -> Option<Fall>
    requires { HasConnection vci words.now }
    ensures { result ≡ brought_both t (connection_at words.now vci) s }
{
    if !mem_words::second_fits(words, vci) {
        return None;
    }
    let second = second_now(words, vci, t);
    Some(Fall { s, second })
}

// Step 2: the connection that rotation names, brought up to date to slot t. None where a number that is read is out of its range,
// which refuses the slot; Some(None) where nothing falls: numbers 0 and V are no connection's. Without a second bucket there is nothing
// to fall in it.
pub fn bring(n: u16, v: u16, words: &[u32], vci: u16, t: u32) -> Option<Option<Fall>>
    requires { HasConnection vci words.now }
    ensures { result ≡ brought_of n v t words.now vci }
{
    if vci == 0 {
        return Some(None);
    }
    if vci == v {
        return Some(None);
    }
    let o = words[WORDS_PER_CONNECTION * (vci as usize)];
    if o == 0 {
        return Some(None);
    }
    if o == 1 {
        if mem_words::bucket_fits(n, words, vci) {
            let s = peak_now(words, vci, t);
            if mem_words::none_second(words, vci) {
                return Some(Some(Fall { s, second: 0 }));
            }
            let both = bring_both(words, vci, t, s)?;
            return Some(Some(both));
        }
    }
    None
}

pub fn no_cell() -> Judged
    ensures { result ≡ judged_as nothing 0 0 0 0 0 }
{
    Judged {
        verdict: 0,
        vci: 0,
        d: 0,
        s: 0,
        waiting: 0,
        second: 0,
    }
}

pub fn no_connection(vci: u16) -> Judged
    ensures { result ≡ judged_as unknown vci 0 0 0 0 }
{
    Judged {
        verdict: 3,
        vci,
        d: 0,
        s: 0,
        waiting: 0,
        second: 0,
    }
}

// A cell of this connection is above a rate: what is in the buckets stays.
fn above(vci: u16, s: u32, second: u32) -> Judged
    ensures { result ≡ judged_as excess vci 0 s 0 second }
{
    Judged {
        verdict: 2,
        vci,
        d: 0,
        s,
        waiting: 0,
        second,
    }
}

// A cell within the peak is let in with this verdict: s is in the bucket before it, second in the second bucket after it.
fn let_in(n: u16, words: &[u32], vci: u16, verdict: u16, s: u32, second: u32) -> Option<Judged>
    requires { Within n words.now vci s }
    ensures { result ≡ let_in_as n verdict vci (with_s (connection_at words.now vci).bucket s) (connection_at words.now vci).waiting second }
{
    let b = WORDS_PER_CONNECTION * (vci as usize);
    let waiting = words[b + AT_WAITING];
    if waiting < n as u32 {
        let full = s + words[b + AT_F];
        let d = leaf_bucket::delay_of(s, words[b + AT_M]) as u16;
        return Some(Judged {
            verdict,
            vci,
            d,
            s: full,
            waiting: waiting + 1,
            second,
        });
    }
    None
}

// Step 3 at an open connection without a second bucket, s being in its bucket.
pub fn judge_peak(n: u16, words: &[u32], vci: u16, s: u32) -> Option<Judged>
    requires { Peaked n words.now vci }
    ensures { result ≡ judged_peak n vci (with_s (connection_at words.now vci).bucket s) (connection_at words.now vci).waiting }
{
    let b = WORDS_PER_CONNECTION * (vci as usize);
    if words[b + AT_C] - words[b + AT_F] < s {
        return Some(above(vci, s, 0));
    }
    let_in(n, words, vci, 1, s, 0)
}

// Step 3 of a CLP 0 cell within the peak, s and second being in the buckets.
fn judge_second(n: u16, words: &[u32], vci: u16, s: u32, second: u32) -> Option<Judged>
    requires within { Within n words.now vci s }
    requires second_in { SecondIn words.now vci }
    ensures { result ≡ judged_second n vci s second (connection_at words.now vci) }
{
    let b = WORDS_PER_CONNECTION * (vci as usize);
    let f = words[b + AT_SECOND_F];
    if words[b + AT_SECOND_C] - f < second {
        if words[b + AT_TAG] == 0 {
            return Some(above(vci, s, second));
        }
        return let_in(n, words, vci, 5, s, second);
    }
    let filled = second + f;
    let_in(n, words, vci, 1, s, filled)
}

// Step 3 at an open connection with a second bucket, of a cell with this CLP, s being in its bucket.
pub fn judge_both(n: u16, words: &[u32], vci: u16, t: u32, clp: u8, s: u32) -> Option<Judged>
    requires { Peaked n words.now vci }
    ensures { result ≡ judged_both n t vci clp s (connection_at words.now vci) }
{
    if !mem_words::second_fits(words, vci) {
        return None;
    }
    let second = second_now(words, vci, t);
    let b = WORDS_PER_CONNECTION * (vci as usize);
    if words[b + AT_C] - words[b + AT_F] < s {
        return Some(above(vci, s, second));
    }
    if clp == 0 {
        return judge_second(n, words, vci, s, second);
    }
    let_in(n, words, vci, 1, s, second)
}

// CLP of a cell: the low bit of octet 4.
pub fn clp_of(cell: &[u8]) -> u8
    requires { 4 ≤ length cell.now }
    ensures { result ≡ clp_in cell.now }
{
    cell[3] % 2
}

// Step 3 at the connection vci, of a cell with this name. The cell's CLP is read only where the connection has a second bucket.
#[inline(always)]
pub fn judge_connection(
    n: u16,
    words: &[u32],
    vci: u16,
    name: u32,
    t: u32,
    cell: &[u8],
) -> Option<Judged>
    requires { (HasConnection vci words.now) × (4 ≤ length cell.now) }
    ensures { result ≡ judged_connection n t words.now (name % 65536) vci (clp_in cell.now) }
{
    let o = words[WORDS_PER_CONNECTION * (vci as usize)];
    if o == 0 {
        return Some(no_connection((name % 65536) as u16));
    }
    if o == 1 {
        if mem_words::bucket_fits(n, words, vci) {
            let s = peak_now(words, vci, t);
            if mem_words::none_second(words, vci) {
                return judge_peak(n, words, vci, s);
            }
            let clp = clp_of(cell);
            return judge_both(n, words, vci, t, clp, s);
        }
    }
    None
}

// VPI and VCI of a cell of 0 or 53 octets as one number; 0 where there is none.
pub fn name_of(cell: &[u8], kind: u16) -> u32
    requires { (length cell.now ≡ 0 → ⊥) → length cell.now ≡ 53 }
    ensures name { result ≡ cell_name kind cell.now }
    ensures reads { (length cell.now ≡ 0 → ⊥) → Reads kind (header_at kind cell.now 0) result }
{
    if cell.len() == 0 {
        return 0;
    }
    leaf_header::name_at(cell, 0, kind)
}

// Step 3 of a cell with this name. Apart from the name's reading, so that each of the two is laid into both of its users.
#[inline(always)]
pub fn judge(n: u16, v: u16, words: &[u32], name: u32, t: u32, cell: &[u8]) -> Option<Judged>
    requires { (words_in v ≡ length words.now) × (v ≤ most_v) × ((name ≡ 0 → ⊥) → length cell.now ≡ 53) }
    ensures { result ≡ judged_name n v t words.now name (clp_in cell.now) }
{
    if name == 0 {
        return Some(no_cell());
    }
    let vci = leaf_header::number_for(v, name);
    if vci != 0 {
        return judge_connection(n, words, vci, name, t, cell);
    }
    if name == 4294967295 {
        return None;
    }
    Some(no_connection((name % 65536) as u16))
}

// Writes of both S and last, where on. Who holds a `Fall` calls `put_fallen`.
#[tactic(auto, unfolding(crate::specs::Arrival::fallen))]
pub fn put_fall(words: &mut [u32], on: bool, vci: u16, s: u32, second: u32, t: u32)
    requires { on ≡ true → HasConnection vci words.old }
    ensures { words.new ≡ fallen on vci s second t words.old }
{
    if on {
        put_fallen(words, vci, s, second, t);
    }
}

// Writes of both S and last.
#[tactic(auto, unfolding(crate::specs::Arrival::fallen))]
pub fn put_fallen(words: &mut [u32], vci: u16, s: u32, second: u32, t: u32)
    requires { HasConnection vci words.old }
    ensures { words.new ≡ fallen true vci s second t words.old }
{
    let b = WORDS_PER_CONNECTION * (vci as usize);
    words[b + AT_S] = s;
    words[b + AT_LAST] = t;
    words[b + AT_SECOND_S] = second;
}

// The words of the connection of a cell that is let in.
pub fn put_fill(words: &mut [u32], vci: u16, s: u32, second: u32, t: u32, waiting: u32)
    requires { HasConnection vci words.old }
    ensures { words.new ≡ filled vci s second t waiting words.old }
{
    let b = WORDS_PER_CONNECTION * (vci as usize);
    words[b + AT_S] = s;
    words[b + AT_LAST] = t;
    words[b + AT_WAITING] = waiting;
    words[b + AT_SECOND_S] = second;
}

// Waiting of a connection falls by one.
#[inline(always)]
pub fn put_less(words: &mut [u32], vci: u16)
    requires { (HasConnection vci words.old) × (1 ≤ get_or words.old (waiting_place vci) 0) }
    ensures { words.new ≡ one_less vci words.old }
{
    let b = WORDS_PER_CONNECTION * (vci as usize);
    words[b + AT_WAITING] = words[b + AT_WAITING] - 1;
}
