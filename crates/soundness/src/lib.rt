// Theorems only: specs/ has what holds of a sheet, its verdict and its runs together.
#![tactic(auto)]
