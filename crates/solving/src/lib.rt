// The solution of a problem whose site is decoded, as a reply states it, before it is bytes: the search (crate `bisection`), and cost,
// gap and surplus of what it found; with step 1 before it, of any problem that the site holds.
#![tactic(auto)]

ghost use Rattle.bisection.specs.Clauses.{FirstHeld, Searchable};
ghost use Rattle.solving.specs.Clauses.{Stateable, States, Solves, HoldsSolution};

use bisection::{Allocation, Found};
use evaluation::Sums;
use site::Site;

// What the reply states, besides the number of units.
#[derive(Clone, Copy)]
pub struct Reply {
    pub evaluations: u16,
    pub cost: u64,
    pub gap: u64,
    pub surplus: u64,
    pub outputs: [u16; 32],
}

// What the reply states of what the search found, for the net `target` that covers the demand.
fn stated(target: u64, f: Found) -> Reply
    requires { Stateable target f }
    ensures { States target f result }
{
    let Found {
        best,
        floor,
        evaluations,
    } = f;
    let Allocation { outputs, cost, net } = best;
    Reply {
        evaluations,
        cost,
        gap: bisection::distance(cost, floor),
        surplus: net - target,
        outputs,
    }
}

// The solution of a problem that step 1 accepts; `first` are its greatest outputs.
pub fn solve(site: &Site, first: Allocation) -> Reply
    requires { FirstHeld site.now.coefficients site.now.ends site.now.ranges site.now.count site.now.target first }
    ensures { Solves site.now.coefficients site.now.ends site.now.ranges site.now.count site.now.target first result }
{
    let mut trace = [0i64; 0];
    stated(site.target, bisection::search(site, first, &mut trace))
}

// The solution of the problem that the site holds, if an allocation covers its demand: step 1, then the search.
pub fn solve_held(site: &Site) -> Option<Reply>
    requires { Searchable site.now.coefficients site.now.ends site.now.ranges site.now.count site.now.target }
    ensures { HoldsSolution site.now.coefficients site.now.ends site.now.ranges site.now.count site.now.target result }
{
    let mut outputs = [0u16; 32];
    let Ok(Sums { cost, net }) = evaluation::step1(site, &mut outputs) else {
        return None;
    };
    let greatest = Allocation { outputs, cost, net };
    Some(solve(site, greatest))
}
