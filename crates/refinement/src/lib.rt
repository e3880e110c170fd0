// Theorems only: the store-level interpreter of machine is the meaning.
#![tactic(auto)]
