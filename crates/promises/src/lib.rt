// The theorems over runs that the product is bought for: read specs/Demand3.antt first. No code.
#![tactic(auto)]
