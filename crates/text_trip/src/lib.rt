// Reading what was written, and writing what was read: definitions in specs/, laws in proofs/. No code.
#![tactic(auto)]
