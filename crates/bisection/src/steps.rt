// The search, steps 2 to 4 (rules 11.3 to 11.11), over a decoded site.
ghost use Rattle.std.specs.Prelude.{◌≡◌, cond, ◌≤◌};
ghost use Rattle.std.specs.Int.Signed.{le_z};
ghost use Rattle.evaluation.specs.Clauses.{Sized};
ghost use Rattle.bisection.specs.Clauses.{Holding, Searchable, sums_of, recorded, Begun, SearchesFrom, Searches};

use evaluation::{Evaluated, Sums};
use lowering::lower;
use site::Site;

// Outputs of the units, with their cost and net together.
#[derive(Clone, Copy)]
pub struct Allocation {
    pub outputs: [u16; 32],
    pub cost: u64,
    pub net: u64,
}

// What a search found: its best allocation, the greatest floor, and the number of evaluations.
#[derive(Clone, Copy)]
pub struct Found {
    pub best: Allocation,
    pub floor: i64,
    pub evaluations: u16,
}

// The greater of two floors or dual values.
pub fn greater(a: i64, b: i64) -> i64
    ensures { result ≡ cond (le_z a b) b a }
{
    a.max(b)
}

// Notes an evaluation, the one of number `k` from 0: its multiplier and dual value as pair `k` of the trace, if that has room for it.
fn note(trace: &mut [i64], k: u16, m: u64, dual: i64)
    requires { m ≤ 65536 }
    ensures { trace.new ≡ recorded trace.old k m dual }
{
    let i = 2 * k as usize;
    if i + 1 < trace.len() {
        trace[i] = m as i64;
        trace[i + 1] = dual;
    }
}

// Where a search stands between two evaluations: the best and the greatest floor so far, and the number of evaluations made. The
// next one is of `low` + `width` modulo 131,072: the first width is 131,072, so the first multiplier is 0. A finished search has width
// 0. It may make `most` evaluations in all.
#[derive(Clone, Copy)]
pub struct SearchState {
    pub best: Allocation,
    pub floor: i64,
    pub evaluations: u16,
    pub low: u64,
    pub width: u64,
    pub most: u16,
}

impl SearchState {
    // The same, finished.
    fn finished(self) -> SearchState
        ensures { result ≡ record { best = self.best; floor = self.floor; evaluations = self.evaluations; low = 0; width = 0; most = self.most } }
    {
        SearchState {
            low: 0,
            width: 0,
            ..self
        }
    }
}

// Steps 2 to 4 from where a search stands, until it is finished or has made `most` evaluations. Each turn evaluates the next
// multiplier and halves the width; a multiplier that does not cover becomes the low end. What is evaluated is noted in the trace.
// (A loop that gives best and floor by `break`, and no `for`: the form that the utility asked for at this place.)
pub fn search_from(site: &Site, start: SearchState, trace: &mut [i64]) -> SearchState
    requires { Searchable site.now.coefficients site.now.ends site.now.ranges site.now.count site.now.target × Begun start }
    ensures { SearchesFrom (Holding site.now.coefficients site.now.ends site.now.ranges site.now.count site.now.target) site.now.count start trace.old result trace.new }
{
    let mut state = start;
    let mut outputs = [0u16; 32];
    let mut least = [0u16; 32];
    let reached = loop {
        let adjacent = state.width == 0;
        if adjacent {
            break state.finished();
        }
        let spent = state.evaluations == state.most;
        if spent {
            break state;
        }
        let m = (state.low + state.width) % 131072;
        state.width /= 2;
        let Evaluated { cost, net, ties } = evaluation::evaluate(site, m, &mut outputs, &mut least);
        let s = Sums { cost, net };
        let dual = evaluation::dual_of(s, site.target, m);
        note(trace, state.evaluations, m, dual);
        state.floor = greater(evaluation::floor_of(dual), state.floor);
        state.evaluations += 1;
        let covers = net >= site.target;
        if covers {
            let Sums { cost, net } = lower(site, s, ties, &least, &mut outputs);
            state.best = Allocation { outputs, cost, net };
            let free = m == 0;
            if free || net == site.target {
                break state.finished();
            }
        } else {
            let at_top = m == 65536;
            if at_top {
                break state.finished();
            }
            state.low = m;
        }
    };
    reached
}

// Steps 2 to 4: `first` are the greatest outputs, which step 1 found to cover. Each evaluation is noted in the trace: one of 36
// numbers has room for all.
pub fn search(site: &Site, first: Allocation, trace: &mut [i64]) -> Found
    requires { Searchable site.now.coefficients site.now.ends site.now.ranges site.now.count site.now.target × Sized site.now.count (sums_of first) }
    ensures { Searches (Holding site.now.coefficients site.now.ends site.now.ranges site.now.count site.now.target) site.now.count first result trace.new }
{
    let start = SearchState {
        best: first,
        floor: 0,
        evaluations: 0,
        low: 0,
        width: 131072,
        most: 18,
    };
    let SearchState {
        best,
        floor,
        evaluations,
        ..
    } = search_from(site, start, trace);
    Found {
        best,
        floor,
        evaluations,
    }
}
