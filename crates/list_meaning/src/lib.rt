// What the listing of a trace is stands in specs/; the counts of its end line pass by value.
#![tactic(auto)]

// The end line's counts, each modulo 2^32.
#[derive(Clone, Copy, Default)]
pub struct Tally {
    pub accepted: u32,
    pub excess: u32,
    pub unknown: u32,
    pub sent: u32,
}
