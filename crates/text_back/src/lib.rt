// Reading what was written, over whole texts and over the very reader of the trace; and a trace printed as a text and written
// again: definitions in specs/, laws in proofs/. No code.
#![tactic(auto)]
