// Traces: the events of a run, their bytes, and what holding one record against another answers. The definitions are in specs/; no function stands here.
#![tactic(auto)]
