// Request (x): the delay summary over runs. Read specs/Summary.antt first. No code.
#![tactic(auto)]
