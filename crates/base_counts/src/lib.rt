// How many errors deceive the header check, counted over all of them. No code.
#![tactic(auto)]
