// Whether a list of demands is one for which a call answers: at most 96 demands, none above 320,000 steps (rule 20.1 of
// docs/SPECIFICATION.md).
#![tactic(auto)]

ghost use Rattle.std.specs.Prelude.{◌≡◌};
ghost use Rattle.rules.specs.Demands.{demands_invalid};

const MOST_DEMANDS: usize = 96;

const MOST_STEPS: u32 = 320000;

pub fn demands_invalid(demands: &[u32]) -> bool
    ensures { result ≡ demands_invalid demands.now }
{
    demands.len() > MOST_DEMANDS || demands.iter().any(|demand| *demand > MOST_STEPS)
}
