// Closed cases of the rules that take long to compute, apart from what they are about: a change of a rule is checked here once, and
// not again for each wrong rule that is tried. No code.

#![tactic(auto)]
