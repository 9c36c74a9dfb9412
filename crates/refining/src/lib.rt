// Refine, from a case file's bytes to the reply's: a dispatch by branch and bound within a budget of nodes (rules 24.1 to 24.11 of
// docs/SPECIFICATION.md). Check and decode, visit the nodes from the root on (`visiting`), write.
#![tactic(auto)]

ghost use Rattle.std.specs.Prelude.{◌≡◌};
ghost use Rattle.branching.specs.Refining.{refined};

mod exchanging;
mod reply;
mod visiting;

use evaluation::Sums;
use exchanging::node_at;
use nodes::Progress;
use reply::{stated, write_refined};
use rules::Refusal;
use site::Site;
use visiting::visit;

// Refines the dispatch of the case file: writes the reply and gives its length, or refuses and leaves the reply's bytes as they were.
pub fn refine(file: &[u8], budget: u32, reply: &mut [u8]) -> Result<usize, Refusal>
    ensures { refined file.now budget reply.old ≡ record { answer = result; reply = reply.new } }
{
    if reply.len() < 94 {
        return Err(Refusal::BufferTooShort);
    }
    if budget < 1 || budget > 100000 {
        return Err(Refusal::BudgetOutOfRange);
    }
    let mut site = Site::empty();
    let mut best = [0u16; 32];
    let Sums { cost, .. } = evaluation::first_best(file, &mut site, &mut best)?;
    // The root's dispatch costs no more than the greatest outputs, so it is cheaper than this, and the best.
    let dearer = cost + 1;
    let start = Progress {
        visited: 0,
        cost: dearer,
        surplus: 0,
        floor: dearer,
    };
    let root = node_at(&site, 0, 0);
    let s = visit(&mut site, budget, 160, root, start, &mut best);
    Ok(write_refined(reply, site.count, stated(s, best)))
}
