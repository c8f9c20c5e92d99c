// The lent memory as it holds the line's cells: each space once, each queued cell with its octets. No code.
#![tactic(auto)]
