// Branch and bound within a budget: its definitions over any nodes, the nodes of a case's search, and what is proved of both. No code:
// crate `refining` has it.

#![tactic(auto)]
