// A unit's choice and its least tied output: of its permitted outputs of least priced cost the greatest and the least. On running
// outputs the priced cost falls until its vertex and rises from there, so that both lie beside the vertex; standing is compared apart.
ghost use Rattle.std.specs.Prelude.{Bool, true, false, ◌≡◌, ◌+◌, ◌≤◌, ◌<◌};
ghost use Rattle.rules.specs.Choice.{better as later·of, earlier as earlier·of};
ghost use Rattle.regions.specs.Regions.{low, high};
ghost use Rattle.site.specs.Site.{Within};
ghost use Rattle.curve.specs.Curve.{height, priced_at, InRange};
ghost use Rattle.choice.specs.Clauses.{Places, Reaching, Running, Beside, Choosable, Gives};

use crate::Choice;
use curve::{Curve, priced_cost};
use std::cmp::Ordering;

// Two outputs that tie.
fn both(below: u16, above: u16) -> Choice
    ensures { (result.greatest ≡ above) × (result.least ≡ below) × (result.tied ≡ true) }
{
    Choice {
        greatest: above,
        least: below,
        tied: true,
    }
}

// One output that ties with no other.
fn only(p: u16) -> Choice
    ensures { (result.greatest ≡ p) × (result.least ≡ p) }
{
    Choice {
        greatest: p,
        least: p,
        tied: false,
    }
}

// The better of two outputs, or both.
fn better(c: Curve, below: u16, above: u16) -> Choice
    requires { InRange c × (below ≤ 10000) × (above ≤ 10000) }
    ensures { (result.greatest ≡ later·of (height c) below above) × (result.least ≡ earlier·of (height c) below above) × (result.tied ≡ false → result.least ≡ result.greatest) }
{
    let x = priced_cost(c, below);
    let y = priced_cost(c, above);
    match x.cmp(&y) {
        Ordering::Less => only(below),
        Ordering::Equal => both(below, above),
        Ordering::Greater => only(above),
    }
}

// The regions `first`..=`last` of a site's.
#[derive(Clone, Copy)]
struct Permitted<'a> {
    ends: &'a [u16; 384],
    first: usize,
    last: usize,
}

impl<'a> Permitted<'a> {
    // The lowest output.
    fn lowest(&self) -> u16
        requires { Places self.now.first self.now.last }
        ensures { result ≡ low self.now.ends.now self.now.first }
    {
        self.ends[2 * self.first]
    }

    // The highest output.
    fn highest(&self) -> u16
        requires { Places self.now.first self.now.last }
        ensures { result ≡ high self.now.ends.now self.now.last }
    {
        self.ends[2 * self.last + 1]
    }

    // The first region whose high reaches `v`, or the last.
    fn region_reaching(&self, v: u16) -> usize
        requires { Places self.now.first self.now.last }
        ensures { Reaching self.now.ends.now self.now.first self.now.last v result }
    {
        for k in self.first..self.last {
            if v <= self.ends[2 * k + 1] {
                return k;
            }
        }
        self.last
    }

    // The choice beside the vertex `v`, which lies from the lowest to the highest running output; `tied` if the output below `v`
    // costs the same.
    fn choose_beside(&self, c: Curve, v: u16, tied: bool) -> Choice
        requires { Beside self.now.ends.now self.now.first self.now.last c v tied }
        ensures { Gives (height c) (Within self.now.ends.now self.now.first self.now.last) result }
    {
        let k = self.region_reaching(v);
        let low = self.ends[2 * k];
        if low < v {
            if tied { both(v - 1, v) } else { only(v) }
        } else if k == self.first {
            only(low)
        } else {
            better(c, self.ends[2 * k - 1], low)
        }
    }

    // The choice among running outputs: an end of them, unless the vertex lies between; all of them where the priced cost is flat.
    fn choose_running(&self, c: Curve) -> Choice
        requires { Running self.now.ends.now self.now.first self.now.last c }
        ensures { Gives (height c) (Within self.now.ends.now self.now.first self.now.last) result }
    {
        let lowest = self.lowest();
        let highest = self.highest();
        let over = c.square as i64 - c.linear;
        let by = 2 * c.square;
        if over > (by * highest as u64) as i64 {
            return only(highest);
        }
        if over < (by * lowest as u64) as i64 {
            return only(lowest);
        }
        let flat = by == 0;
        if flat {
            return both(lowest, highest);
        }
        let twice = by as i64;
        self.choose_beside(c, (over / twice) as u16, over % twice == 0)
    }

    // Without the region 0..0, if the first is that; no region may be left.
    fn running(&self) -> Permitted<'a>
        requires { self.now.first < 192 }
        ensures ends { result.ends.now ≡ self.now.ends.now }
        ensures last { result.last ≡ self.now.last }
        ensures first { (high self.now.ends.now self.now.first ≡ 0 → result.first ≡ self.now.first + 1) × ((high self.now.ends.now self.now.first ≡ 0 → ⊥) → result.first ≡ self.now.first) }
    {
        if self.ends[2 * self.first + 1] == 0 {
            Permitted {
                first: self.first + 1,
                ..*self
            }
        } else {
            *self
        }
    }
}

// The choice among the regions `first`..=`last`; standing costs nothing.
pub fn choose(ends: &[u16; 384], first: usize, last: usize, c: Curve) -> Choice
    requires { Choosable ends.now first last c }
    ensures { Gives (priced_at c) (Within ends.now first last) result }
{
    let permitted = Permitted { ends, first, last };
    let running = permitted.running();
    if running.first > last {
        return only(0);
    }
    let choice = running.choose_running(c);
    if running.first == first {
        return choice;
    }
    let p = choice.greatest;
    match priced_cost(c, p).cmp(&0) {
        Ordering::Greater => only(0),
        Ordering::Equal => both(0, p),
        Ordering::Less => choice,
    }
}
