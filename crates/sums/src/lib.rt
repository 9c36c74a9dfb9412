// Cost and net of the choices of a decoded site (crate `site`) at a multiplier together, and how many units tie; of one unit, and of all.
// So a site in which one unit's regions are changed has its sums without another look at the other units.
#![tactic(auto)]

ghost use Rattle.std.specs.Prelude.{◌≡◌, ◌+◌, ◌-◌};
ghost use Rattle.evaluation.specs.Clauses.{Evaluable};
ghost use Rattle.sums.specs.Sums.{TermHeld, Terms, Sums, Exchangeable};

use choice::choose;
use curve::{cost_of, curve_of, net_of};
use site::Site;

// Cost and net together, and how many units have a lower output that ties with their choice.
#[derive(Clone, Copy)]
pub struct Totals {
    pub cost: u64,
    pub net: u64,
    pub ties: u64,
}

// Of unit `i` at multiplier `m`.
pub fn term_at(site: &Site, i: usize, m: u64) -> Totals
    requires { TermHeld site.now.coefficients site.now.ends site.now.ranges i m }
    ensures { Terms site.now.coefficients site.now.ends site.now.ranges i m result }
{
    let first = site.ranges[2 * i] as usize;
    let last = site.ranges[2 * i + 1] as usize;
    let c = choose(&site.ends, first, last, curve_of(&site.coefficients, i, m));
    let p = c.greatest;
    Totals {
        cost: cost_of(&site.coefficients, i, p),
        net: net_of(&site.coefficients, i, p),
        ties: u64::from(c.least != p),
    }
}

// Of all units at multiplier `m`.
pub fn sums_at(site: &Site, m: u64) -> Totals
    requires { Evaluable site.now.coefficients site.now.ends site.now.ranges site.now.count m }
    ensures { Sums site.now.coefficients site.now.ends site.now.ranges site.now.count m result }
{
    let mut cost: u64 = 0;
    let mut net: u64 = 0;
    let mut ties: u64 = 0;
    for i in 0..site.count {
        let term = term_at(site, i, m);
        cost += term.cost;
        net += term.net;
        ties += term.ties;
    }
    Totals { cost, net, ties }
}

// `s` with the terms of one unit exchanged.
pub fn exchanged(s: Totals, old: Totals, new: Totals) -> Totals
    requires { Exchangeable s old new }
    ensures { result ≡ record { cost = s.cost - old.cost + new.cost; net = s.net - old.net + new.net; ties = s.ties - old.ties + new.ties } }
{
    Totals {
        cost: s.cost - old.cost + new.cost,
        net: s.net - old.net + new.net,
        ties: s.ties - old.ties + new.ties,
    }
}
