// No code: the policer with a clock that never wraps (specs/), and why the 32-bit one decides as it does (proofs/).
#![tactic(auto)]
