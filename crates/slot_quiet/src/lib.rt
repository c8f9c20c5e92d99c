// A slot in which no cell is accepted: steps 4 and 5 are read and judged, then all is written.
// A refusal is a Served with its number: a `Result` of Served was tried, costs a slot more, and goes through memory once more.
// So r, the record as it came, goes beside k, in which the clock has moved: a refusal gives it back.
#![tactic(auto)]

ghost use Rattle.std.specs.Prelude.{◌≡◌, true, false, List, ℕ, ◌+◌, ◌*◌, ◌≤◌, ◌<◌, length};
ghost use Rattle.meaning.specs.Plain.{◌=?◌};
ghost use Rattle.meaning.specs.Numbers.{excess, most_n, most_v, octets, connections_in, words_in, bit_words};
ghost use Rattle.meaning.specs.Bits.{is_free_space};
ghost use Rattle.meaning.specs.State.{HasConnection};
ghost use Rattle.meaning.specs.Lists.{ends_fit};
ghost use Rattle.slot_arrive.specs.Arrival.{fallen};
ghost use Rattle.mem_lists.specs.Spaces.{ends_of, off_of};
ghost use Rattle.slot_plan.specs.Plan.{rotated, may_be_freed, joined_links, joined_head, leaving_marked, leaving_output, leaving_unmarked};
ghost use Rattle.slot_plan.specs.Works.{last_steps};
ghost use Rattle.slot_plan.specs.Facts.{SizedWith};
ghost use Rattle.slot_quiet.specs.Quiet.{EndsWith, GivesWith, AllWith, KeepsWith, MayEnd};

use leaf_refusal::Refusal;
use meaning::{Answer, Record, Served};
use mem_lists::Off;
use slot_arrive::{Fall, Judged};

// Steps 2 and 3 in the words where no cell is accepted.
fn words_fall(k: Record, b: Option<Fall>, j: Judged, words: &mut [u32])
    requires has_connection { HasConnection k.rotation words.old }
    requires has_connection_2 { j.verdict =? excess ≡ true → HasConnection j.vci words.old }
    ensures { words.new ≡ fallen (j.verdict =? excess) j.vci j.s j.second k.t (rotated k b words.old) }
{
    if let Some(f) = b {
        slot_arrive::put_fallen(words, k.rotation, f.s, f.second, k.t);
    }
    slot_arrive::put_fall(words, j.verdict == 2, j.vci, j.s, j.second, k.t);
}

// Space x may be freed: the words of free spaces and their number fit, and it is not free.
fn may_free(n: u16, free: u16, bits: &[u64], x: u16) -> bool
    requires { (n ≤ most_n) × (x < most_n) × (length bits.now ≡ bit_words) }
    ensures { result ≡ may_be_freed n free bits.now x }
{
    if mem_bits::is_free(bits, x) {
        return false;
    }
    mem_bits::fits(n, free, bits)
}

// A departure where no cell was accepted: all writes but the entry's; where clears, its mark is cleared.
fn quiet_end(
    k: Record,
    b: Option<Fall>,
    j: Judged,
    o: Off,
    joins: bool,
    head: u16,
    clears: bool,
    links: &mut [u16],
    words: &mut [u32],
    bits: &mut [u64],
) -> Served
    requires may_end { MayEnd k o links words }
    requires vci_bound { j.verdict =? excess ≡ true → j.vci < connections_in k.v }
    requires outtail_lt_n { joins ≡ true → k.outtail < k.n }
    requires free_le_most_n { (k.free ≤ most_n) × (length bits.old ≡ bit_words) × (o.space < most_n) × (is_free_space bits.old o.space ≡ false) × (clears ≡ true → k.turn < most_n) }
    ensures { (cells calendar calendar' arrived : List ℕ) → EndsWith cells calendar calendar' arrived k b j o joins head clears result links words bits }
{
    words_fall(k, b, j, words);
    slot_arrive::put_less(words, o.vci);
    mem_lists::put_link(links, joins, k.outtail, head);
    mem_bits::release(bits, o.space, clears, k.turn);
    slot_depart::left(k, k.free + 1, j.verdict, j.vci, 0, o)
}

// What departs once entry T, from head to tail, has joined the Output List.
fn off_marked(
    k: Record,
    head: u16,
    tail: u16,
    cells: &[u8],
    links: &[u16],
    words: &[u32],
) -> Option<Off>
    requires n_le_most_n { (k.n ≤ most_n) × (k.v ≤ most_v) × (head < k.n) × (length cells.now ≡ octets * k.n) × (length links.now ≡ k.n) × (length words.now ≡ words_in k.v) }
    requires outtail_value { ends_fit k.n (ends_of k.outhead k.outtail) ≡ true }
    ensures { result ≡ off_of k.n k.v k.kind cells.now (joined_links k (ends_of head tail) links.now) words.now (joined_head k (ends_of head tail)) tail }
{
    if k.outhead == 65535 {
        return mem_lists::off_head(k.n, k.v, k.kind, cells, links, words, head, tail);
    }
    mem_lists::off_joined(
        k.n, k.v, k.kind, cells, links, words, k.outhead, k.outtail, head, tail,
    )
}

// No cell was accepted, and entry T is marked, from head to tail.
fn quiet_marked(
    r: Record,
    k: Record,
    b: Option<Fall>,
    j: Judged,
    head: u16,
    tail: u16,
    cells: &[u8],
    links: &mut [u16],
    calendar: &mut [u16],
    words: &mut [u32],
    bits: &mut [u64],
) -> Served
    requires sized_with { SizedWith k cells.now links.old calendar.old words.old bits.old }
    requires vci_bound { j.verdict =? excess ≡ true → j.vci < connections_in k.v }
    requires head_lt_n { (head < k.n) × (ends_fit k.n (ends_of k.outhead k.outtail) ≡ true) }
    ensures { (arrived : List ℕ) → AllWith arrived r k b j (λ w. leaving_marked w (ends_of head tail)) result cells links calendar words bits }
{
    let Some(o) = off_marked(k, head, tail, cells, links, words) else {
        return slot_depart::refuse_for(r, Refusal::Stored);
    };
    if !may_free(k.n, k.free, bits, o.space) {
        return slot_depart::refuse_for(r, Refusal::Stored);
    }
    slot_depart::clear_entry(calendar, true, k.turn);
    quiet_end(
        k,
        b,
        j,
        o,
        k.outhead != 65535,
        head,
        true,
        links,
        words,
        bits,
    )
}

// No cell was accepted, entry T is not marked, and the Output List has a head.
fn quiet_output(
    r: Record,
    k: Record,
    b: Option<Fall>,
    j: Judged,
    cells: &[u8],
    links: &mut [u16],
    words: &mut [u32],
    bits: &mut [u64],
) -> Served
    requires n_le_most_n { (k.n ≤ most_n) × (k.v ≤ most_v) × (length cells.now ≡ octets * k.n) × (length links.old ≡ k.n) × (length words.old ≡ words_in k.v) × (k.rotation < connections_in k.v) }
    requires bits_len { length bits.old ≡ bit_words }
    requires outhead_lt_n { k.outhead < k.n }
    requires vci_bound { j.verdict =? excess ≡ true → j.vci < connections_in k.v }
    ensures { (calendar arrived : List ℕ) → GivesWith calendar arrived r k b j leaving_output result cells links words bits }
{
    let Some(o) = mem_lists::off_head(k.n, k.v, k.kind, cells, links, words, k.outhead, k.outtail)
    else {
        return slot_depart::refuse_for(r, Refusal::Stored);
    };
    if !may_free(k.n, k.free, bits, o.space) {
        return slot_depart::refuse_for(r, Refusal::Stored);
    }
    quiet_end(k, b, j, o, false, 0, false, links, words, bits)
}

// No cell was accepted, and nothing departs.
fn quiet_none(k: Record, b: Option<Fall>, j: Judged, words: &mut [u32]) -> Served
    requires words_len { (length words.old ≡ words_in k.v) × (k.rotation < connections_in k.v) }
    requires vci_bound { j.verdict =? excess ≡ true → j.vci < connections_in k.v }
    ensures { (cells links calendar bits arrived : List ℕ) → KeepsWith cells links calendar bits arrived k b j result words }
{
    words_fall(k, b, j, words);
    Served {
        ctl: k,
        answer: Answer {
            number: 0,
            verdict: j.verdict,
            vci: j.vci,
            d: 0,
            space: 65535,
            departing: 0,
        },
    }
}

// No cell was accepted, and entry T is not marked. The Output List's ends are tested one after the other: as one truth value
// a pair is worked out without branches, in twice as many instructions.
fn quiet_unmarked(
    r: Record,
    k: Record,
    b: Option<Fall>,
    j: Judged,
    cells: &[u8],
    links: &mut [u16],
    words: &mut [u32],
    bits: &mut [u64],
) -> Served
    requires n_le_most_n { (k.n ≤ most_n) × (k.v ≤ most_v) × (length cells.now ≡ octets * k.n) × (length links.old ≡ k.n) × (length words.old ≡ words_in k.v) × (k.rotation < connections_in k.v) }
    requires bits_len { length bits.old ≡ bit_words }
    requires vci_bound { j.verdict =? excess ≡ true → j.vci < connections_in k.v }
    ensures { (calendar arrived : List ℕ) → GivesWith calendar arrived r k b j leaving_unmarked result cells links words bits }
{
    if k.outhead == 65535 {
        if k.outtail != 65535 {
            return slot_depart::refuse_for(r, Refusal::Stored);
        }
        return quiet_none(k, b, j, words);
    }
    if k.outhead >= k.n {
        return slot_depart::refuse_for(r, Refusal::Stored);
    }
    if k.outtail >= k.n {
        return slot_depart::refuse_for(r, Refusal::Stored);
    }
    quiet_output(r, k, b, j, cells, links, words, bits)
}

// No cell was accepted. The ends of entry T are tested one after the other too, and for the same reason.
pub fn quiet(
    r: Record,
    k: Record,
    b: Option<Fall>,
    j: Judged,
    cells: &[u8],
    links: &mut [u16],
    calendar: &mut [u16],
    words: &mut [u32],
    bits: &mut [u64],
) -> Served
    requires sized_with { SizedWith k cells.now links.old calendar.old words.old bits.old }
    requires vci_bound { j.verdict =? excess ≡ true → j.vci < connections_in k.v }
    ensures { (arrived : List ℕ) → AllWith arrived r k b j last_steps result cells links calendar words bits }
{
    let at = 2 * (k.turn as usize);
    let head = calendar[at];
    let tail = calendar[at + 1];
    if head == 65535 {
        if tail != 65535 {
            return slot_depart::refuse_for(r, Refusal::Stored);
        }
        return quiet_unmarked(r, k, b, j, cells, links, words, bits);
    }
    if head >= k.n {
        return slot_depart::refuse_for(r, Refusal::Stored);
    }
    if tail >= k.n {
        return slot_depart::refuse_for(r, Refusal::Stored);
    }
    if !mem_lists::pair(k.n, k.outhead, k.outtail) {
        return slot_depart::refuse_for(r, Refusal::Stored);
    }
    quiet_marked(r, k, b, j, head, tail, cells, links, calendar, words, bits)
}
