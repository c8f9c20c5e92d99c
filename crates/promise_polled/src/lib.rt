// A card that polls: bursts in a run are the calls of their slots. Read specs/Polled.antt first. No code.
#![tactic(auto)]
