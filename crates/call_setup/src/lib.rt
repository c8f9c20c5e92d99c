// Setting up a policer: cells, links, words and arrival slots cleared, all N spaces free by their bits, the calendar and the Output
// List emptied.
#![tactic(auto)]

ghost use Rattle.std.specs.Prelude.{◌≡◌, ◌<◌, length};
ghost use Rattle.meaning.specs.Numbers.{ranges_hold, kind_in_range, bit_words, splits_hold};
ghost use Rattle.meaning.specs.Bits.{full_word, all_free};
ghost use Rattle.meaning.specs.Calls.{zeros, asked_of};
ghost use Rattle.meaning.specs.Promises.{setup_promise};
ghost use Rattle.meaning.specs.Lent.{before, set_up_after};
ghost use Rattle.leaf_refusal.specs.Refusals.{given_number};
ghost use Rattle.call_setup.specs.Order.{in_order, lengths_are};

use leaf_refusal::{Refusal, kind_fits, lengths_hold, ranges_hold, refuse_unless, splits_hold};
use meaning::{Fresh, fresh_record, no_record};

// Word w of the bits where spaces 0 to N-1 are free and no entry is marked: no bit, all 64, or those below the cut.
fn full_word(n: u16, w: usize) -> u64
    requires { w < bit_words }
    ensures { result ≡ full_word n w }
{
    match usize::from(n).saturating_sub(64 * w) {
        64.. => u64::MAX,
        here => (1 << here) - 1,
    }
}

// Spaces 0 to N-1 are free, and no other; no entry is marked.
fn free_all(n: u16, bits: &mut [u64])
    requires { length bits.old ≡ bit_words }
    ensures { bits.new ≡ all_free n }
{
    for (w, word) in bits.iter_mut().enumerate() {
        *word = full_word(n, w);
    }
}

// "Order: setup 1, 2", 1 also for a split out of its range, and "13, line kind unknown, after 1": the first of them.
// kind is any number that clurimoon_setup is handed, so refusal 13 judges it here, and no enum of the two kinds comes in.
fn setup_refusal(
    n: u16,
    v: u16,
    kind: u16,
    splitvci: u16,
    splitpath: u16,
    cells: usize,
    links: usize,
    calendar: usize,
    words: usize,
    bits: usize,
    arrived: usize,
) -> Result<(), Refusal>
    ensures { given_number result ≡ in_order (ranges_hold n v) (splits_hold v splitvci splitpath) (kind_in_range kind) (lengths_are n v cells links calendar words bits arrived) }
{
    let long = lengths_hold(n, v, cells, links, calendar, words, bits, arrived);
    refuse_unless(ranges_hold(n, v), Refusal::Ranges)?;
    refuse_unless(splits_hold(v, splitvci, splitpath), Refusal::Ranges)?;
    refuse_unless(kind_fits(kind), Refusal::LineKind)?;
    refuse_unless(long, Refusal::Lengths)
}

// "Setup clears all lent memory, then chains spaces 0 to N-1 into the Free List in that order and empties the calendar"; now they are
// free by their bits.
// raw and kind are as clurimoon_setup, which C calls, is handed them: setup_promise says what any kind gives.
pub fn setup(
    n: u16,
    v: u16,
    raw: bool,
    kind: u16,
    splitvci: u16,
    splitpath: u16,
    cells: &mut [u8],
    links: &mut [u16],
    calendar: &mut [u16],
    words: &mut [u32],
    bits: &mut [u64],
    arrived: &mut [u32],
) -> Fresh
    ensures { setup_promise n v (asked_of raw kind splitvci splitpath) (before zeros cells links calendar words bits arrived) (set_up_after result cells links calendar words bits arrived) }
{
    let judged = setup_refusal(
        n,
        v,
        kind,
        splitvci,
        splitpath,
        cells.len(),
        links.len(),
        calendar.len(),
        words.len(),
        bits.len(),
        arrived.len(),
    );
    if let Err(why) = judged {
        return Fresh {
            number: u16::from(why),
            ctl: no_record(),
        };
    }
    cells.fill(0);
    links.fill(0);
    calendar.fill(65535);
    words.fill(0);
    free_all(n, bits);
    arrived.fill(0);
    Fresh {
        number: 0,
        ctl: fresh_record(n, v, raw, kind, splitvci, splitpath),
    }
}
