// Request (ix): how long until something leaves. Read specs/Next.antt first. No code.
#![tactic(auto)]
