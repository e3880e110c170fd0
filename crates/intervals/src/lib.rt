// Definitions only: specs/ says what a run over ranges answers and leaves in the caller's buffers, and that it contains every plain run.
#![tactic(auto)]
