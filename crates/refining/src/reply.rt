// What the reply states of a search, and its bytes: those of any reply, with a second number of four bytes.
ghost use Rattle.std.specs.Prelude.{◌≡◌, ◌≤◌, ◌-◌, min, length};
ghost use Rattle.rules.specs.Lists.{over};
ghost use Rattle.branching.specs.Refining.{refined_bytes};
ghost use Rattle.refining.specs.Clauses.{refined_held};

use dispatching::{Amounts, write_numbers};
use nodes::Progress;

// What the reply states, besides the number of units.
#[derive(Clone, Copy)]
pub struct Refined {
    pub nodes: u32,
    pub cost: u64,
    pub gap: u64,
    pub surplus: u64,
    pub outputs: [u16; 32],
}

// What the reply states of a search and its best outputs.
pub fn stated(s: Progress, best: [u16; 32]) -> Refined
    ensures { result ≡ record { nodes = s.visited; cost = s.cost; gap = s.cost - min s.cost s.floor; surplus = s.surplus; outputs = best } }
{
    let Progress {
        visited,
        cost,
        surplus,
        floor,
    } = s;
    Refined {
        nodes: visited,
        cost,
        gap: cost.saturating_sub(floor),
        surplus,
        outputs: best,
    }
}

// Writes the reply for `n` units, and gives its length.
pub fn write_refined(s: &mut [u8], n: usize, r: Refined) -> usize
    requires { (n ≤ 32) × (94 ≤ length s.old) }
    ensures { (result ≡ length (refined_bytes (refined_held n r))) × (s.new ≡ over (refined_bytes (refined_held n r)) s.old) }
{
    let Refined {
        nodes,
        cost,
        gap,
        surplus,
        outputs,
    } = r;
    let amounts = Amounts { cost, gap, surplus };
    write_numbers(s, n, 4, nodes as u64, amounts, &outputs)
}
