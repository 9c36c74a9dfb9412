// One node of the search within a budget (crate `branching`), evaluated. Where two multipliers beside each other are known with the sums
// of the node's choices, they often suffice: a floor that reaches the best cost closes the node, and where the lower one does not cover
// and the upper one does, without a tie, the node's dispatch is the choices of the upper one. Else it is dispatched. (Closed is the
// field's fathomed, or pruned, by bound.)
#![tactic(auto)]

ghost use Rattle.std.specs.Prelude.{◌≡◌, true, ◌+◌, ◌≤◌, ◌<◌, IfSome};
ghost use Rattle.rules.specs.Numbers.{natural};
ghost use Rattle.evaluation.specs.Clauses.{SiteHeld, Dualable};
ghost use Rattle.bisection.specs.Clauses.{FirstHeld, Searchable};
ghost use Rattle.nodes.specs.Clauses.{totals_of, Floors, KnownFloor, taken_at, SearchesNode, DispatchesNode, NodeEvaluable, EvaluatesNode};

use bisection::{Allocation, Found};
use evaluation::Sums;
use site::Site;
use sums::Totals;

// What a search has: how many nodes are evaluated; cost and surplus of the best outputs, which stand in a lent array; and the least
// floor among the nodes that are not replaced by children, of which only what lies below the best cost means something.
#[derive(Clone, Copy)]
pub struct Progress {
    pub visited: u32,
    pub cost: u64,
    pub surplus: u64,
    pub floor: u64,
}

// A node besides its site: its parent's floor, and a multiplier below the greatest with the sums of the node's choices at it and at
// the next one.
#[derive(Clone, Copy)]
pub struct Node {
    pub parent: u64,
    pub multiplier: u64,
    pub low: Totals,
    pub high: Totals,
}

// What is seen of a node that is neither closed nor without an allocation: its floor, and a multiplier for its parts.
#[derive(Clone, Copy)]
pub struct Seen {
    pub floor: u64,
    pub multiplier: u64,
}

// What the evaluation of a node gives besides the best outputs: what is seen of it, or none where it only counts; and what the search
// then has.
#[derive(Clone, Copy)]
pub struct NodeEvaluation {
    pub seen: Option<Seen>,
    pub progress: Progress,
}

// What a node's dispatch is known by besides its outputs; and a multiplier for the node's parts.
#[derive(Clone, Copy)]
struct Dispatch {
    cost: u64,
    surplus: u64,
    floor: u64,
    multiplier: u64,
}

#[derive(Clone, Copy)]
struct Searched {
    dispatch: Dispatch,
    outputs: [u16; 32],
}

// A floor as an unsigned number: 0 for a negative one.
fn natural_of(z: i64) -> u64
    ensures { result ≡ natural z }
{
    z.max(0) as u64
}

// The floor of multiplier `m`, by the sums of its choices.
fn floor_at(s: Totals, target: u64, m: u64) -> i64
    requires { Dualable (totals_of s) target m }
    ensures { Floors s target m result }
{
    let Totals { cost, net, .. } = s;
    evaluation::floor_of(evaluation::dual_of(Sums { cost, net }, target, m))
}

// One node more is evaluated.
fn counted(s: Progress) -> Progress
    requires { s.visited < 4294967295 }
    ensures { result ≡ record { visited = s.visited + 1; cost = s.cost; surplus = s.surplus; floor = s.floor } }
{
    Progress {
        visited: s.visited + 1,
        ..s
    }
}

// The greater of the floors of a node's two multipliers, or 0.
fn known_floor(x: Node, target: u64) -> u64
    requires { Dualable (totals_of x.low) target x.multiplier × Dualable (totals_of x.high) target (x.multiplier + 1) }
    ensures { KnownFloor x target result }
{
    let Node {
        multiplier,
        low,
        high,
        ..
    } = x;
    let lower = floor_at(low, target, multiplier);
    natural_of(lower.max(floor_at(high, target, multiplier + 1)))
}

// The last multiplier that a search noted in its trace, if it noted one; 65,535 instead of 65,536.
fn last_noted(trace: &[i64; 36], evaluations: u16) -> Option<u64>
    ensures { IfSome result (λ m. m ≤ 65535) }
{
    let place = (2 * evaluations as usize).checked_sub(2)?;
    let noted = trace.get(place)?;
    Some(natural_of(*noted).min(65535))
}

// A multiplier for the parts of a node that was dispatched: `m`, the last one that its search noted; if that covers, the one before it.
// (It decides how soon the parts are known, and no answer: any other is right too.)
fn next_multiplier(site: &Site, m: u64) -> u64
    requires { SiteHeld site.now.coefficients site.now.ends site.now.ranges site.now.count × (m ≤ 65535) }
    ensures { result ≤ 65535 }
{
    let Totals { net, .. } = sums::sums_at(site, m);
    if net < site.target {
        m
    } else {
        m.saturating_sub(1)
    }
}

// What the search has and the node's floor, after a dispatch; where that is cheaper than the best, the caller writes its outputs.
fn taken(parent: u64, s: Progress, d: Dispatch) -> NodeEvaluation
    requires { s.visited < 4294967295 }
    ensures { result ≡ taken_at parent s d }
{
    let Dispatch {
        cost,
        surplus,
        floor,
        multiplier,
    } = d;
    let Progress { cost: before, .. } = s;
    let below = parent.max(floor);
    let seen = Some(Seen {
        floor: below,
        multiplier,
    });
    let progress = counted(s);
    if cost < before {
        return NodeEvaluation {
            seen,
            progress: Progress {
                cost,
                surplus,
                ..progress
            },
        };
    }
    NodeEvaluation { seen, progress }
}

// The dispatch of a node whose greatest outputs, which cover, are `first`.
fn search_node(site: &Site, first: Allocation) -> Searched
    requires { FirstHeld site.now.coefficients site.now.ends site.now.ranges site.now.count site.now.target first }
    ensures { SearchesNode site.now.coefficients site.now.ends site.now.ranges site.now.count site.now.target first result }
{
    let mut trace = [0i64; 36];
    let Found {
        best,
        floor,
        evaluations,
    } = bisection::search(site, first, &mut trace);
    let Allocation { outputs, cost, net } = best;
    let last = last_noted(&trace, evaluations).unwrap_or(0);
    Searched {
        dispatch: Dispatch {
            cost,
            surplus: net - site.target,
            floor: natural_of(floor),
            multiplier: next_multiplier(site, last),
        },
        outputs,
    }
}

// The node is dispatched, if it has an allocation.
// (A frame of its own: the visit of a node calls itself, and would hold the arrays of this one at each depth.)
#[inline(never)]
fn dispatch_node(site: &Site, parent: u64, s: Progress, best: &mut [u16; 32]) -> NodeEvaluation
    requires { Searchable site.now.coefficients site.now.ends site.now.ranges site.now.count site.now.target × (s.visited < 4294967295) }
    ensures { DispatchesNode site.now.coefficients site.now.ends site.now.ranges site.now.count site.now.target parent s best.old result best.new }
{
    let Progress { cost: known, .. } = s;
    let mut greatest = [0u16; 32];
    let Ok(Sums { cost, net }) = evaluation::step1(site, &mut greatest) else {
        return NodeEvaluation {
            seen: None,
            progress: counted(s),
        };
    };
    let top = Allocation {
        outputs: greatest,
        cost,
        net,
    };
    let Searched { dispatch, outputs } = search_node(site, top);
    if dispatch.cost < known {
        *best = outputs;
    }
    taken(parent, s, dispatch)
}

// Evaluates the node that the site holds: its dispatch is the best if it is cheaper than the best.
pub fn evaluate_node(site: &Site, x: Node, s: Progress, best: &mut [u16; 32]) -> NodeEvaluation
    requires { NodeEvaluable site.now.coefficients site.now.ends site.now.ranges site.now.count site.now.target x s }
    ensures { EvaluatesNode site.now.coefficients site.now.ends site.now.ranges site.now.count site.now.target x s best.old result best.new }
{
    let Node {
        parent,
        multiplier,
        low,
        high,
    } = x;
    let Totals { net: short, .. } = low;
    let Totals { cost, net, ties } = high;
    let floor = known_floor(x, site.target);
    let bound = s.cost;
    if floor >= bound {
        return NodeEvaluation {
            seen: None,
            progress: counted(s),
        };
    }
    if short >= site.target || net < site.target || ties != 0 {
        return dispatch_node(site, parent, s, best);
    }
    let d = Dispatch {
        cost,
        surplus: net - site.target,
        floor,
        multiplier,
    };
    if cost < s.cost {
        let mut least = [0u16; 32];
        evaluation::evaluate(site, multiplier + 1, best, &mut least);
    }
    taken(parent, s, d)
}
