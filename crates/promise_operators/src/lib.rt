// Request (xi): two operators on one card. What the one is told follows from its own calls and cells. Read specs/Operators.antt first. No code.
#![tactic(auto)]
