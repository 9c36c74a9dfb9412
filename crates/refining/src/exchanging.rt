// The sums of a node's choices at two multipliers beside each other, anew; and of a part of the node, from those of the node.
ghost use Rattle.std.specs.Prelude.{◌+◌, ◌≤◌};
ghost use Rattle.evaluation.specs.Clauses.{SiteHeld};
ghost use Rattle.sums.specs.Sums.{TermHeld};
ghost use Rattle.refining.specs.Clauses.{SumsHeld, SumsKept, HoldsUnitTerms, NodeExchangeable, ExchangesNode};

use nodes::Node;
use site::Site;
use sums::Totals;

// One unit's terms of a node's sums: at a multiplier, and at the next one.
#[derive(Clone, Copy)]
pub struct UnitTerms {
    pub low: Totals,
    pub high: Totals,
}

// The node that the site holds: its parent's floor, and the sums of its choices at `m` and at the next multiplier.
pub fn node_at(site: &Site, parent: u64, m: u64) -> Node
    requires { SiteHeld site.now.coefficients site.now.ends site.now.ranges site.now.count × (m ≤ 65535) }
    ensures { SumsHeld site.now.coefficients site.now.ends site.now.ranges site.now.count parent m result }
{
    Node {
        parent,
        multiplier: m,
        low: sums::sums_at(site, m),
        high: sums::sums_at(site, m + 1),
    }
}

// The node `x`, which the site holds, with the floor for its parts, and the sums at `m`: made anew, unless `x` has them.
pub fn node_again(site: &Site, parent: u64, m: u64, x: Node) -> Node
    requires { SiteHeld site.now.coefficients site.now.ends site.now.ranges site.now.count × (m ≤ 65535) }
    ensures { SumsKept site.now.coefficients site.now.ends site.now.ranges site.now.count parent m x result }
{
    let Node { multiplier, .. } = x;
    if multiplier != m {
        return node_at(site, parent, m);
    }
    Node { parent, ..x }
}

// The terms of unit `k` at `m` and at the next multiplier.
pub fn unit_terms(site: &Site, k: usize, m: u64) -> UnitTerms
    requires { TermHeld site.now.coefficients site.now.ends site.now.ranges k (m + 1) }
    ensures { HoldsUnitTerms site.now.coefficients site.now.ends site.now.ranges k m result }
{
    UnitTerms {
        low: sums::term_at(site, k, m),
        high: sums::term_at(site, k, m + 1),
    }
}

// The node that the site holds now, where unit `k` has other regions than in `x`; `old` are its terms in the sums of `x`. The other
// units are not looked at.
pub fn exchanged_node(site: &Site, k: usize, x: Node, old: UnitTerms) -> Node
    requires { NodeExchangeable site.now.coefficients site.now.ends site.now.ranges k x old }
    ensures { ExchangesNode site.now.coefficients site.now.ends site.now.ranges k x old result }
{
    let terms = unit_terms(site, k, x.multiplier);
    Node {
        low: sums::exchanged(x.low, old.low, terms.low),
        high: sums::exchanged(x.high, old.high, terms.high),
        ..x
    }
}
