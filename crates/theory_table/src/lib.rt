// What a VC's words say over a run: the exact leak rule, seen through a clock that wraps. No code.
#![tactic(auto)]
