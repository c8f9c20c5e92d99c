// What writing a trace from a text means stands in specs/, and its laws in proofs/. Why nothing was written passes by value.
#![tactic(auto)]

// Why a writer wrote nothing: 10 at the first octet of what can't be read, a text's line or the record that would stand there;
// or 14, the output is too short: at the place that came, 0 where a whole text is written.
#[derive(Clone, Copy, PartialEq, Eq)]
pub enum WriteError {
    Unreadable { place: usize },
    TooShort { place: usize },
}
