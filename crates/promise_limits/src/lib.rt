// What demand 3 cannot promise, and why: runs in which it happens. No code.
#![tactic(auto)]
