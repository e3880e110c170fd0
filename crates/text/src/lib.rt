// The text that the checking program prints. The definitions and theorems are in specs/; no function stands here.
#![tactic(auto)]
