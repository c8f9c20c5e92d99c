// Request (iv): what a customer with a second bucket may count on. Read specs/Sustained.antt first. No code.
#![tactic(auto)]
