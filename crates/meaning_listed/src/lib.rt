// The slot with a Free List, as it was before the bits: no code, only what it means.
#![tactic(auto)]
