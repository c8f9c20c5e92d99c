// The slot's plan: no code, only what it means.
#![tactic(auto)]
