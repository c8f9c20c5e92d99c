// Opening and closing a connection: a VC by its VCI, or a path by its VPI. One way for both; only the name differs. Each call is
// made as one of the two operators, `owner`: 0 the first, 1 the second.
// owner is any number that C hands over: one that is neither 0 nor 1 owns nothing (`Operators.owns`), so it is no enum here.
#![tactic(auto)]

ghost use Rattle.std.specs.Prelude.{◌≡◌, true, ◌≤◌, IfOk, IfErr};
ghost use Rattle.meaning.specs.Numbers.{most_v};
ghost use Rattle.meaning.specs.Header.{named, number_in};
ghost use Rattle.meaning.specs.State.{HasConnection};
ghost use Rattle.meaning.specs.Operators.{owns};
ghost use Rattle.meaning.specs.Words.{connection_at, debt};
ghost use Rattle.meaning.specs.Calls.{shared_refusal};
ghost use Rattle.meaning.specs.Promises.{open_promise, close_promise};
ghost use Rattle.leaf_refusal.specs.Refusals.{number_of, given_number};
ghost use Rattle.call_connection.specs.Names.{name_of};
ghost use Rattle.call_connection.specs.Rates.{second_in};
ghost use Rattle.call_connection.specs.NotYet.{not_yet};
ghost use Rattle.call_connection.specs.Own.{own_refusal};

use leaf_bucket::{fallen_to, obeys_rules, obeys_second};
use leaf_refusal::{Refusal, ranges_hold, refuse_unless, splits_hold, words_in};
use meaning::{AT_LAST, AT_M, AT_S, AT_WAITING, PATHS, Record, WORDS_PER_CONNECTION};
use mem_words::{connection_fits, write_connection};

// How a call names a connection: a VC by its VCI, a whole path by its VPI.
#[derive(Clone, Copy, PartialEq, Eq)]
pub enum Name {
    Vc(u16),
    Path(u16),
}

// The peak bucket that a connection is opened with.
#[derive(Clone, Copy, PartialEq, Eq)]
pub struct Peak {
    pub m: u8,
    pub f: u32,
    pub c: u32,
}

// The second bucket that it is opened with, and the flag. (No Option: C hands over m, F, C and flag 0 for none, and may hand over any
// other numbers, which refusal 11 judges.)
#[derive(Clone, Copy, PartialEq, Eq)]
pub struct Second {
    pub m: u8,
    pub f: u32,
    pub c: u32,
    pub tag: u8,
}

pub const NO_SECOND: Second = Second {
    m: 0,
    f: 0,
    c: 0,
    tag: 0,
};

// "VCI .. 1 to V-1", and "4 also for a path number outside 1 to 255".
#[tactic(auto, using(leaf_refusal::proofs::Within::within_open), unfolding(meaning::specs::Header::named))]
fn is_named(v: u16, name: Name) -> bool
    ensures { result ≡ named v (name_of name) }
{
    match name {
        Name::Vc(vci) => (1..v).contains(&vci),
        Name::Path(vpi) => (1..PATHS).contains(&vpi),
    }
}

// The number of the connection: a VC's VCI, a path's V + VPI.
#[tactic(auto, unfolding(meaning::specs::Header::number_in, meaning::specs::Header::named))]
fn number_of(v: u16, name: Name) -> u16
    requires { (v ≤ most_v) × (named v (name_of name) ≡ true) }
    ensures { result ≡ number_in v (name_of name) }
{
    match name {
        Name::Vc(vci) => vci,
        Name::Path(vpi) => v + vpi,
    }
}

// "Connections below a split VCI and a split path number .. are the first's, the others the second's."
#[tactic(auto, unfolding(meaning::specs::Operators::owns, meaning::specs::Operators::owner_of))]
fn is_owned(ctl: Record, owner: u16, name: Name) -> bool
    ensures { result ≡ owns ctl owner (name_of name) }
{
    let firsts = match name {
        Name::Vc(vci) => vci < ctl.splitvci,
        Name::Path(vpi) => vpi < ctl.splitpath,
    };
    owner == if firsts { 0 } else { 1 }
}

// The number of the connection that is named, or the first of refusals 1, 2, 4, 16 and 3, in this order. The connection's words are
// read only where they are lent, and are the caller's.
#[tactic(auto, unfolding(meaning::specs::Calls::shared_refusal, meaning::specs::State::words_length))]
fn connection_of(ctl: Record, words: &[u32], owner: u16, name: Name) -> Result<u16, Refusal>
    ensures found { IfOk result (λ c. (c ≡ number_in ctl.v (name_of name)) × (shared_refusal ctl words.now owner (name_of name) ≡ 0)) }
    ensures refused { IfErr result (λ why. number_of why ≡ shared_refusal ctl words.now owner (name_of name)) }
{
    refuse_unless(ranges_hold(ctl.n, ctl.v), Refusal::Ranges)?;
    refuse_unless(
        splits_hold(ctl.v, ctl.splitvci, ctl.splitpath),
        Refusal::Ranges,
    )?;
    refuse_unless(words.len() == words_in(ctl.v), Refusal::Lengths)?;
    refuse_unless(is_named(ctl.v, name), Refusal::Name)?;
    refuse_unless(is_owned(ctl, owner, name), Refusal::Operator)?;
    let conn = number_of(ctl.v, name);
    refuse_unless(connection_fits(ctl.n, words, conn), Refusal::Stored)?;
    Ok(conn)
}

// Open's own refusals, 5, 6 and 11, in this order.
// opened is the open word as it stands in the memory that C lends, a number: connection_of has judged that it is 0 or 1.
fn own_refusal(n: u16, opened: u32, peak: Peak, second: Second) -> Result<(), Refusal>
    ensures { given_number result ≡ own_refusal n opened peak.m peak.f peak.c (second_in second) }
{
    let rules = obeys_rules(n, u32::from(peak.m), peak.f, peak.c);
    let limits = obeys_second(
        u32::from(second.m),
        second.f,
        second.c,
        u32::from(second.tag),
    );
    refuse_unless(opened != 1, Refusal::AlreadyOpen)?;
    refuse_unless(rules, Refusal::Rules)?;
    refuse_unless(limits, Refusal::SecondBucket)
}

// "Opening sets open 1, the given m, F and C, S 0, last t, waiting 0.", and so for a second bucket.
// It is laid in place: where none is opened with a second bucket, as by `clurimoon_open`, the limits of one are not tested.
#[inline(always)]
pub fn open(
    ctl: Record,
    words: &mut [u32],
    owner: u16,
    name: Name,
    peak: Peak,
    second: Second,
) -> Result<(), Refusal>
    ensures { open_promise ctl words.old owner (name_of name) peak.m peak.f peak.c (second_in second) (given_number result) words.new }
{
    let opening = connection_of(ctl, words, owner, name)?;
    let opened = words[WORDS_PER_CONNECTION * usize::from(opening)];
    own_refusal(ctl.n, opened, peak, second)?;
    let m = u32::from(peak.m);
    let m2 = u32::from(second.m);
    let tag = u32::from(second.tag);
    write_connection(
        words, opening, 1, m, peak.f, peak.c, ctl.t, m2, second.f, second.c, tag,
    );
    Ok(())
}

// What is left in the connection's bucket once it is brought up to date as of t. It is worked out, not stored.
#[tactic(auto, unfolding(meaning::specs::Words::connection_at, meaning::specs::Words::debt, meaning::specs::Bucket::fall))]
fn debt_of(words: &[u32], conn: u16, t: u32) -> u32
    requires { (HasConnection conn words.now) × ((connection_at words.now conn).bucket.m ≤ 15) }
    ensures { result ≡ debt t (connection_at words.now conn) }
{
    let base = WORDS_PER_CONNECTION * usize::from(conn);
    let m = words[base + AT_M];
    let s = words[base + AT_S];
    let last = words[base + AT_LAST];
    fallen_to(s, m, last, t)
}

// Refusal 8 of an open connection: a cell of it waits, or it has a debt.
#[tactic(auto, unfolding(meaning::specs::Words::connection_at))]
fn not_yet(words: &[u32], conn: u16, t: u32) -> Result<(), Refusal>
    requires { (HasConnection conn words.now) × ((connection_at words.now conn).bucket.m ≤ 15) }
    ensures { given_number result ≡ not_yet t (connection_at words.now conn) }
{
    let waiting = words[WORDS_PER_CONNECTION * usize::from(conn) + AT_WAITING];
    refuse_unless(waiting == 0, Refusal::NotYet)?;
    refuse_unless(debt_of(words, conn, t) == 0, Refusal::NotYet)
}

// "Closing clears all seven words.", and the second bucket's five. Of a closed connection only the open word is read.
pub fn close(ctl: Record, words: &mut [u32], owner: u16, name: Name) -> Result<(), Refusal>
    ensures { close_promise ctl words.old owner (name_of name) (given_number result) words.new }
{
    let closing = connection_of(ctl, words, owner, name)?;
    let opened = words[WORDS_PER_CONNECTION * usize::from(closing)];
    refuse_unless(opened != 0, Refusal::NotOpen)?;
    not_yet(words, closing, ctl.t)?;
    write_connection(words, closing, 0, 0, 0, 0, 0, 0, 0, 0, 0);
    Ok(())
}
