// What holds after every call from a fresh state, and that every call keeps it. No code.
#![tactic(auto)]
