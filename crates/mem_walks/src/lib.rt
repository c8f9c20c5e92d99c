// Lists of spaces walked under two budgets, which say how often each space, and each connection, may still be met. The walk takes
// one off for each space and each queued cell and fails at 0; at the end nothing may be left. So no count can overflow,
// and a head, link or header out of range fails by itself.
// The budgets are handed on apart, in no struct: `Stored.StoredIn` and what `stored` says is left speak of each by itself.
#![tactic(auto)]

ghost use Rattle.std.specs.Prelude.{◌≡◌, true, ℕ, ◌<◌, get_or};
ghost use Rattle.std.specs.List.{list_all};
ghost use Rattle.meaning.specs.Plain.{◌<?◌, ◌=?◌};
ghost use Rattle.mem_walks.specs.Budget.{spent};
ghost use Rattle.mem_walks.specs.Walk.{header_of_space, named_by, walked_after, ends_of, walk, list_of, entries_of, lists_in};
ghost use Rattle.mem_walks.specs.Stored.{NoMark, StoredIn};

use meaning::{PATHS, Record};

// One x is taken off a budget, if any is left.
fn take(b: &mut [u32], x: usize) -> bool
    ensures { (result ≡ 0 <? get_or b.old x 0) × (b.new ≡ spent b.old x) }
{
    if x < b.len() && 0 < b[x] {
        b[x] -= 1;
        return true;
    }
    false
}

// Nothing is left of a budget.
fn gone(b: &[u32]) -> bool
    ensures { result ≡ list_all (λ left. left =? 0) b.now }
{
    b.iter().all(|left| *left == 0)
}

// What is stored there, `none` past the end: the walk may meet any link, and tests a space by its budget alone.
fn at<T: Copy>(l: &[T], i: usize, none: T) -> T
    ensures { result ≡ get_or l.now i none }
{
    l.get(i).copied().unwrap_or(none)
}

// What the audit walks along: the links, and the cells on a line of this kind with this V, by which a cell names its connection.
#[derive(Clone, Copy)]
struct Walks<'a> {
    links: &'a [u16],
    cells: &'a [u8],
    kind: u16,
    v: u16,
}

impl Walks<'_> {
    // The VPI of the cell of space x: without the GFC at the UNI, of twelve bits at the NNI.
    fn vpi_at(&self, x: u16) -> u32
        ensures { (result ≡ (header_of_space self.now x).vpi) × (result < 4096) }
    {
        let i = 53 * usize::from(x);
        let o1 = u32::from(at(self.cells, i, 0));
        let o2 = u32::from(at(self.cells, i + 1, 0));
        if self.kind == 0 {
            o1 % 16 * 16 + o2 / 16
        } else {
            o1 * 16 + o2 / 16
        }
    }

    // Its VCI, which stands where it stands on either kind of line.
    fn vci_at(&self, x: u16) -> u32
        ensures { result ≡ (header_of_space self.now x).vci }
    {
        let i = 53 * usize::from(x);
        let o2 = u32::from(at(self.cells, i + 1, 0));
        let o3 = u32::from(at(self.cells, i + 2, 0));
        let o4 = u32::from(at(self.cells, i + 3, 0));
        o2 % 16 * 4096 + o3 * 16 + o4 / 16
    }

    // The number of the connection that the cell of space x names: its VCI, or V + VPI; 65,535, which is none's, where it names
    // none. No Option: `stored` promises that no budget is left of 65,535 either (`Walk.name_of`), so it is taken off like any number.
    fn name_at(&self, x: u16) -> u32
        ensures { result ≡ named_by self.now x }
    {
        let v = u32::from(self.v);
        match self.vpi_at(x) {
            0 => match self.vci_at(x) {
                0 => 65535,
                vci if vci < v => vci,
                _ => 65535,
            },
            vpi if vpi < u32::from(PATHS) => v + vpi,
            _ => 65535,
        }
    }

    // The connection that the cell of space x names is taken off the cells' budget.
    fn visit(&self, waits: &mut [u32], x: u16) -> bool
        ensures { (result ≡ 0 <? get_or waits.old (named_by self.now x) 0) × (waits.new ≡ spent waits.old (named_by self.now x)) }
    {
        take(waits, self.name_at(x) as usize)
    }

    // A chain walked from its head to its tail. The sum of the spaces' budget falls at each turn, so the walk ends.
    fn walk(&self, spaces: &mut [u32], waits: &mut [u32], tail: u16, head: u16) -> bool
        ensures { walked_after result spaces waits ≡ walk self.now.links.now (named_by self.now) tail head spaces.old waits.old }
    {
        let mut x = head;
        while take(spaces, usize::from(x)) && self.visit(waits, x) {
            if x == tail {
                return true;
            }
            x = at(self.links, usize::from(x), 0);
        }
        false
    }

    // A list by its head and tail: both are 65,535 where it is empty.
    fn list(&self, spaces: &mut [u32], waits: &mut [u32], head: u16, tail: u16) -> bool
        ensures { walked_after result spaces waits ≡ list_of self.now.links.now (named_by self.now) (ends_of head tail) spaces.old waits.old }
    {
        if head == 65535 {
            tail == 65535
        } else {
            self.walk(spaces, waits, tail, head)
        }
    }

    // The time slot queues of all n calendar entries.
    fn entries(&self, calendar: &[u16], spaces: &mut [u32], waits: &mut [u32], n: u16) -> bool
        ensures { walked_after result spaces waits ≡ entries_of self.now.links.now calendar.now (named_by self.now) n 0 spaces.old waits.old }
    {
        for e in 0..usize::from(n) {
            let head = at(calendar, 2 * e, 0);
            let tail = at(calendar, 2 * e + 1, 0);
            if !self.list(spaces, waits, head, tail) {
                return false;
            }
        }
        true
    }
}

// The Output List and the time slot queues, one after the other.
fn lists(
    r: Record,
    cells: &[u8],
    links: &[u16],
    calendar: &[u16],
    spaces: &mut [u32],
    waits: &mut [u32],
) -> bool
    ensures { walked_after result spaces waits ≡ lists_in r cells links calendar spaces waits }
{
    let walks = Walks {
        links,
        cells,
        kind: r.kind,
        v: r.v,
    };
    walks.list(spaces, waits, r.outhead, r.outtail) && walks.entries(calendar, spaces, waits, r.n)
}

// All lists together use both budgets up; what is left is what the walks leave.
pub fn stored(
    r: Record,
    cells: &[u8],
    links: &[u16],
    calendar: &[u16],
    spaces: &mut [u32],
    waits: &mut [u32],
) -> bool
    requires { NoMark spaces.old }
    ensures yes { result ≡ true → StoredIn r cells links calendar spaces waits }
    ensures no { StoredIn r cells links calendar spaces waits → result ≡ true }
    ensures left { (spaces.new ≡ (lists_in r cells links calendar spaces waits).spaces) × (waits.new ≡ (lists_in r cells links calendar spaces waits).waits) }
{
    lists(r, cells, links, calendar, spaces, waits) && gone(spaces) && gone(waits)
}
