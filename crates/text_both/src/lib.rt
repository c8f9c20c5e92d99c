// What `unscribe` prints, through `scribe`: definitions in specs/, laws in proofs/. No code.
#![tactic(auto)]
