// The line without its memory: time slot queues and an Output List of cells, and what holds of them. No code.
#![tactic(auto)]
