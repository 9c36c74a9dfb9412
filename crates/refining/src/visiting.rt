// Nodes visited depth first. A node is the site with other ranges: they are changed for each of its two parts, and put back.
ghost use Rattle.std.specs.Prelude.{◌≡◌, ◌≤◌, ◌<◌, min, length};
ghost use Rattle.refining.specs.Clauses.{ranged, FirstSeveral, Visitable, Visits};

use crate::exchanging::{exchanged_node, node_again, unit_terms};
use nodes::{Node, NodeEvaluation, Progress, Seen, evaluate_node};
use site::Site;

// A floor joins those of the nodes that are not replaced by children.
fn with_floor(s: Progress, floor: u64) -> Progress
    ensures { result ≡ record { visited = s.visited; cost = s.cost; surplus = s.surplus; floor = min floor s.floor } }
{
    Progress {
        floor: floor.min(s.floor),
        ..s
    }
}

// The first of `n` units with several regions, if one has.
fn first_several(ranges: &[u8; 64], n: usize) -> Option<usize>
    requires { n ≤ 32 }
    ensures { FirstSeveral ranges.now n result }
{
    for i in 0..n {
        if ranges[2 * i] != ranges[2 * i + 1] {
            return Some(i);
        }
    }
    None
}

// Gives unit `k` the regions from `first` to `last`.
fn put_range(ranges: &mut [u8; 64], k: usize, first: u8, last: u8)
    requires { k < 32 }
    ensures { ranges.new ≡ ranged ranges.old k first last }
{
    ranges[2 * k] = first;
    ranges[2 * k + 1] = last;
}

// Visits the node that the site holds, and its parts, depth first: the first unit with several regions gets its lowest region alone,
// then the rest. `left` is how many more regions may be split off.
pub fn visit(
    site: &mut Site,
    budget: u32,
    left: usize,
    x: Node,
    s: Progress,
    best: &mut [u16; 32],
) -> Progress
    requires { Visitable site.old.coefficients site.old.ends site.old.ranges site.old.count site.old.target x }
    ensures kept { site.new ≡ site.old }
    ensures visits { Visits site.old.coefficients site.old.ends site.old.ranges site.old.count site.old.target budget left x s best.old result best.new }
{
    let Progress { visited, .. } = s;
    let Node { parent, .. } = x;
    if visited >= budget {
        return with_floor(s, parent);
    }
    let NodeEvaluation { seen, progress } = evaluate_node(site, x, s, best);
    let Some(Seen { floor, multiplier }) = seen else {
        return progress;
    };
    let Progress { cost, .. } = progress;
    if floor >= cost {
        return with_floor(progress, floor);
    }
    let Some(k) = first_several(&site.ranges, site.count) else {
        return with_floor(progress, floor);
    };
    if left == 0 {
        return with_floor(progress, floor);
    }
    let a = site.ranges[2 * k];
    let b = site.ranges[2 * k + 1];
    let own = node_again(site, floor, multiplier, x);
    let old = unit_terms(site, k, multiplier);
    put_range(&mut site.ranges, k, a, a);
    let lowest = exchanged_node(site, k, own, old);
    let after = visit(site, budget, left - 1, lowest, progress, best);
    put_range(&mut site.ranges, k, a + 1, b);
    let rest = exchanged_node(site, k, own, old);
    let last = visit(site, budget, left - 1, rest, after, best);
    put_range(&mut site.ranges, k, a, b);
    last
}
