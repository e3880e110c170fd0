// Definitions only: specs/ says what a sheet means, what a whole run answers, and what it leaves in the caller's buffers.
#![tactic(auto)]
