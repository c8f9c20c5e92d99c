// Free spaces as bits say what the Free List said, but for the space: document 02 (vii), old form against new. No code.
#![tactic(auto)]
