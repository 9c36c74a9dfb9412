// Lower bounds of a case from lower bounds of other cases, one for each part of its allocations: definitions, and what is proved of
// them. No code.

#![tactic(auto)]
