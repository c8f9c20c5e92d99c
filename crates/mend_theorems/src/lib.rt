// What mending a damaged trace keeps: read specs/Salvaged.antt first. No code.
#![tactic(auto)]
