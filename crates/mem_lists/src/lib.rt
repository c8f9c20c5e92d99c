// Lists of spaces by head, tail and links: what a slot reads of them, and the few words that it writes.
#![tactic(auto)]

ghost use Rattle.std.specs.Prelude.{◌≡◌, true, ◌+◌, ◌*◌, ◌≤◌, ◌<◌, length, get_or, set};
ghost use Rattle.meaning.specs.Numbers.{most_n, most_v, octets, cell_start, per_entry, connections_in, words_in};
ghost use Rattle.meaning.specs.State.{HasConnection};
ghost use Rattle.meaning.specs.Header.{header_at};
ghost use Rattle.meaning.specs.Lists.{ends_fit, write_entry};
ghost use Rattle.leaf_header.specs.Name.{numbered};
ghost use Rattle.mem_lists.specs.Spaces.{ends_of, linked, seat_at, seat_of, off_of};
ghost use Rattle.mem_lists.specs.Leaver.{may_go, goes_as, leaver_of, off_from, leaver_after, off_after};

use meaning::{AT_WAITING, WORDS_PER_CONNECTION};

// Where an accepted cell goes: its space x, its entry e and that entry's head and tail.
#[derive(Clone, Copy)]
pub struct Seat {
    pub x: u16,
    pub e: u16,
    pub head: u16,
    pub tail: u16,
}

// What departs: the space, its connection, and what is left of the Output List.
#[derive(Clone, Copy)]
pub struct Off {
    pub space: u16,
    pub vci: u16,
    pub head: u16,
    pub tail: u16,
}

// "a head and tail are both below N or both 65,535"
pub fn pair(n: u16, head: u16, tail: u16) -> bool
    requires { n ≤ 1024 }
    ensures { result ≡ ends_fit n (ends_of head tail) }
{
    if head < n {
        return tail < n;
    }
    if head == 65535 {
        return tail == 65535;
    }
    false
}

// The seat of a cell that takes space x and joins entry e, whose head and tail are read and judged: one number after the other,
// since a pair's test as one truth value costs twice as much.
pub fn seat_at(n: u16, calendar: &[u16], e: u16, x: u16) -> Option<Seat>
    requires { (n ≤ most_n) × (length calendar.now ≡ per_entry * n) × (e < n) }
    ensures { result ≡ seat_at n calendar.now e x }
{
    let head = calendar[2 * (e as usize)];
    let tail = calendar[2 * (e as usize) + 1];
    if head == 65535 {
        if tail != 65535 {
            return None;
        }
    } else {
        if head >= n {
            return None;
        }
        if tail >= n {
            return None;
        }
    }
    Some(Seat { x, e, head, tail })
}

// The seat of a cell with delay d: it joins entry (T+D) modulo N, which one comparison gives.
pub fn seat_for(n: u16, calendar: &[u16], turn: u16, d: u16, x: u16) -> Option<Seat>
    requires { (n ≤ most_n) × (length calendar.now ≡ per_entry * n) × (turn < n) × (d < n) }
    ensures { result ≡ seat_of n calendar.now turn d x }
{
    let far = turn + d;
    let e = if far < n { far } else { far - n };
    seat_at(n, calendar, e, x)
}

// The connection u is open and has 1 to N cells waiting.
#[inline(always)]
fn may_go(n: u16, words: &[u32], u: u16) -> bool
    requires { HasConnection u words.now }
    ensures { result ≡ may_go n words.now u }
{
    let b = WORDS_PER_CONNECTION * (u as usize);
    if words[b] == 1 {
        let waiting = words[b + AT_WAITING];
        if waiting != 0 {
            return waiting <= n as u32;
        }
    }
    false
}

// The connection u, if a cell of it may depart, else 0; 0 is no connection.
#[inline(always)]
fn goes(n: u16, words: &[u32], u: u16) -> u16
    requires { HasConnection u words.now }
    ensures { result ≡ goes_as n words.now u }
{
    if u != 0 {
        if may_go(n, words, u) {
            return u;
        }
    }
    0
}

// The connection that the header in space x names, by its number; 0 for none.
#[inline(always)]
fn number_in(v: u16, kind: u16, cells: &[u8], x: u16) -> u16
    requires { (v ≤ most_v) × (cell_start x + octets ≤ length cells.now) }
    ensures number { result ≡ numbered kind v (header_at kind cells.now (cell_start x)) }
    ensures low { result < connections_in v }
{
    let name = leaf_header::name_at(cells, 53 * (x as usize), kind);
    leaf_header::number_for(v, name)
}

// The connection whose cell is in space x, if that cell may depart, else 0.
pub fn leaver(n: u16, v: u16, kind: u16, cells: &[u8], words: &[u32], x: u16) -> u16
    requires { (v ≤ most_v) × (cell_start x + octets ≤ length cells.now) × (length words.now ≡ words_in v) }
    ensures { result ≡ leaver_of n v kind cells.now words.now x }
{
    let u = number_in(v, kind, cells, x);
    goes(n, words, u)
}

// The same once a cell of the connection own has been accepted into space s: own's words need no reading.
#[inline(always)]
fn leaver_after(
    n: u16,
    v: u16,
    kind: u16,
    cells: &[u8],
    words: &[u32],
    own: u16,
    s: u16,
    x: u16,
) -> u16
    requires { (v ≤ most_v) × (cell_start x + octets ≤ length cells.now) × (length words.now ≡ words_in v) }
    ensures { result ≡ leaver_after n v kind cells.now words.now own s x }
{
    if x == s {
        return own;
    }
    let u = number_in(v, kind, cells, x);
    if u == own {
        return own;
    }
    goes(n, words, u)
}

// Space x departs with a cell of the connection vci (0: it may not), follower being the next in its list, if it is not the tail.
#[inline(always)]
fn off_from(n: u16, vci: u16, x: u16, follower: u16, tail: u16) -> Option<Off>
    ensures { result ≡ off_from n vci x follower tail }
{
    if vci != 0 {
        if x == tail {
            return Some(Off {
                space: x,
                vci,
                head: 65535,
                tail: 65535,
            });
        }
        if follower < n {
            return Some(Off {
                space: x,
                vci,
                head: follower,
                tail,
            });
        }
    }
    None
}

// The head x of a list that ends at tail departs, in memory as it is.
pub fn off_head(
    n: u16,
    v: u16,
    kind: u16,
    cells: &[u8],
    links: &[u16],
    words: &[u32],
    x: u16,
    tail: u16,
) -> Option<Off>
    requires { (n ≤ most_n) × (v ≤ most_v) × (x < n) × (length cells.now ≡ octets * n) × (length links.now ≡ n) × (length words.now ≡ words_in v) }
    ensures { result ≡ off_of n v kind cells.now links.now words.now x tail }
{
    let vci = leaver(n, v, kind, cells, words, x);
    let follower = if x == tail { 65535 } else { links[x as usize] };
    off_from(n, vci, x, follower, tail)
}

// Link x once link i names y, where on.
#[inline(always)]
fn link_after(links: &[u16], on: bool, i: u16, y: u16, x: u16) -> u16
    requires { x < length links.now }
    ensures { result ≡ get_or (linked on i y links.now) x 0 }
{
    if on {
        if x == i {
            return y;
        }
    }
    links[x as usize]
}

// The head x of the Output List departs, once the chain from head to tail has joined its end, old.
pub fn off_joined(
    n: u16,
    v: u16,
    kind: u16,
    cells: &[u8],
    links: &[u16],
    words: &[u32],
    x: u16,
    old: u16,
    head: u16,
    tail: u16,
) -> Option<Off>
    requires { (n ≤ most_n) × (v ≤ most_v) × (x < n) × (length cells.now ≡ octets * n) × (length links.now ≡ n) × (length words.now ≡ words_in v) }
    ensures { result ≡ off_of n v kind cells.now (set links.now old head) words.now x tail }
{
    let vci = leaver(n, v, kind, cells, words, x);
    let follower = if x == tail {
        65535
    } else {
        link_after(links, true, old, head, x)
    };
    off_from(n, vci, x, follower, tail)
}

// Link x once link s names y, where named, and then link old names head, where joins.
#[inline(always)]
fn links_after(
    links: &[u16],
    s: u16,
    named: bool,
    y: u16,
    joins: bool,
    old: u16,
    head: u16,
    x: u16,
) -> u16
    requires { x < length links.now }
    ensures { result ≡ get_or (linked joins old head (linked named s y links.now)) x 0 }
{
    if joins {
        if x == old {
            return head;
        }
    }
    link_after(links, named, s, y, x)
}

// The same once a cell of the connection own has been accepted into space s, whose link names y where named, and, where joins, link old names head.
#[inline(always)]
pub fn off_after(
    n: u16,
    v: u16,
    kind: u16,
    cells: &[u8],
    links: &[u16],
    words: &[u32],
    own: u16,
    s: u16,
    named: bool,
    y: u16,
    joins: bool,
    old: u16,
    head: u16,
    x: u16,
    tail: u16,
) -> Option<Off>
    requires { (n ≤ most_n) × (v ≤ most_v) × (x < n) × (length cells.now ≡ octets * n) × (length links.now ≡ n) × (length words.now ≡ words_in v) }
    ensures { result ≡ off_after n v kind cells.now (linked joins old head (linked named s y links.now)) words.now own s x tail }
{
    let vci = leaver_after(n, v, kind, cells, words, own, s, x);
    let follower = if x == tail {
        65535
    } else {
        links_after(links, s, named, y, joins, old, head, x)
    };
    off_from(n, vci, x, follower, tail)
}

// One link, where on.
#[inline(always)]
pub fn put_link(links: &mut [u16], on: bool, i: u16, x: u16)
    requires { on ≡ true → i < length links.old }
    ensures { links.new ≡ linked on i x links.old }
{
    if on {
        links[i as usize] = x;
    }
}

// The two numbers of entry e.
pub fn put_entry(calendar: &mut [u16], e: u16, head: u16, tail: u16)
    requires { 2 * e + 2 ≤ length calendar.old }
    ensures { calendar.new ≡ write_entry calendar.old e (ends_of head tail) }
{
    let at = 2 * (e as usize);
    calendar[at] = head;
    calendar[at + 1] = tail;
}
