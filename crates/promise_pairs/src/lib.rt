// What one of two operators may see of the other: pairs of runs that differ in it. No code.
#![tactic(auto)]
