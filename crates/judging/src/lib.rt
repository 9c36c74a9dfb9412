// Outputs that someone keys in, judged: whether they are permitted and cover the demand, and then what they cost and how far that
// is above the greatest floor (section 19 of docs/SPECIFICATION.md). The greatest floor of all multipliers is that of those which
// the search evaluates, so that a judgement takes as long as a dispatch.
#![tactic(auto)]

ghost use Rattle.std.specs.Prelude.{◌≡◌, ◌&&◌, ◌<◌, leb, length};
ghost use Rattle.bisection.specs.Clauses.{FirstHeld};
ghost use Rattle.judging.specs.Judging.{judged};
ghost use Rattle.judging.specs.Clauses.{LiesTold, Summable, SumTold, JudgedHeld};

use bisection::Allocation;
use evaluation::Sums;
use rules::Refusal;
use site::Site;

// What is told of outputs that are accepted: their cost, what they give above the demand, and how far their cost is above the
// greatest floor.
#[derive(Clone, Copy)]
pub struct Judgement {
    pub cost: u64,
    pub surplus: u64,
    pub distance: u64,
}

// Whether `p` lies from `low` to `high`.
fn between(low: u16, high: u16, p: u32) -> bool
    ensures { result ≡ (leb low p && leb p high) }
{
    u32::from(low) <= p && p <= u32::from(high)
}

// Whether `p` lies in one of the regions `first`..=`last`.
fn lies_within(ends: &[u16; 384], first: usize, last: usize, p: u32) -> bool
    requires { last < 192 }
    ensures { LiesTold ends.now first last p result }
{
    for k in first..=last {
        if between(ends[2 * k], ends[2 * k + 1], p) {
            return true;
        }
    }
    false
}

// Cost and net of the outputs together, one for each unit, if each is permitted.
fn sum_outputs(site: &Site, outputs: &[u32]) -> Option<Sums>
    requires { Summable site.now.coefficients site.now.ends site.now.ranges site.now.count outputs.now }
    ensures { SumTold site.now.coefficients site.now.ends site.now.ranges site.now.count outputs.now result }
{
    let mut cost = 0;
    let mut net = 0;
    for (i, &p) in outputs.iter().enumerate() {
        let first = usize::from(site.ranges[2 * i]);
        let last = usize::from(site.ranges[2 * i + 1]);
        if !lies_within(&site.ends, first, last, p) {
            return None;
        }
        cost += curve::cost_of(&site.coefficients, i, p as u16);
        net += curve::net_of(&site.coefficients, i, p as u16);
    }
    Some(Sums { cost, net })
}

// Outputs, one for each unit, of a site that step 1 accepts; `first` are its greatest outputs.
fn judge_outputs(site: &Site, first: Allocation, outputs: &[u32]) -> Option<Judgement>
    requires { FirstHeld site.now.coefficients site.now.ends site.now.ranges site.now.count site.now.target first × (length outputs.now ≡ site.now.count) }
    ensures { JudgedHeld site.now.coefficients site.now.ends site.now.ranges site.now.count site.now.target first outputs.now result }
{
    let Sums { cost, net } = sum_outputs(site, outputs)?;
    if net < site.target {
        return None;
    }
    let mut trace = [0i64; 0];
    let found = bisection::search(site, first, &mut trace);
    Some(Judgement {
        cost,
        surplus: net - site.target,
        distance: bisection::distance(cost, found.floor),
    })
}

// Judges outputs for the case file: refused, or not accepted (`None`), or accepted.
pub fn judge(file: &[u8], outputs: &[u32]) -> Result<Option<Judgement>, Refusal>
    ensures { result ≡ judged file.now outputs.now }
{
    let mut site = Site::empty();
    let mut greatest = [0u16; 32];
    let Sums { cost, net } = evaluation::first_best(file, &mut site, &mut greatest)?;
    if outputs.len() != site.count {
        return Err(Refusal::OutputCountInvalid);
    }
    let best = Allocation {
        outputs: greatest,
        cost,
        net,
    };
    Ok(judge_outputs(&site, best, outputs))
}
