// Choices that cover, lowered: the units one by one, each where all together then still cover (rule 10.4 of docs/SPECIFICATION.md).
#![tactic(auto)]

ghost use Rattle.lowering.specs.Clauses.{UnitLowerable, LowersUnit, Lowerable, Lowers};

use evaluation::Sums;
use site::Site;

// Lowers unit `i` to its least tied output `l` where all outputs together, of cost and net `s`, then still cover.
fn lower_unit(site: &Site, i: usize, s: Sums, l: u16, outputs: &mut [u16]) -> Sums
    requires { UnitLowerable site.now.coefficients i s l outputs.old }
    ensures { LowersUnit site.now.coefficients i site.now.target s l outputs.old outputs.new result }
{
    let p = outputs[i];
    if p <= l {
        return s;
    }
    let Sums { cost, net } = s;
    let coefficients = &site.coefficients;
    let after = net - curve::net_of(coefficients, i, p) + curve::net_of(coefficients, i, l);
    if after < site.target {
        return s;
    }
    outputs[i] = l;
    Sums {
        cost: cost - curve::cost_of(coefficients, i, p) + curve::cost_of(coefficients, i, l),
        net: after,
    }
}

// Lowers the units one by one; `outputs` are their choices, of cost and net `s`, and `least` their least tied outputs, of which `ties`
// may be lower.
pub fn lower(site: &Site, s: Sums, ties: u64, least: &[u16], outputs: &mut [u16]) -> Sums
    requires { Lowerable site.now.coefficients site.now.count s ties least.now outputs.old }
    ensures { Lowers site.now.coefficients site.now.count site.now.target s least.now outputs.old outputs.new result }
{
    let alone = ties == 0;
    if alone {
        return s;
    }
    let mut sums = s;
    for i in 0..site.count {
        sums = lower_unit(site, i, sums, least[i], outputs);
    }
    sums
}
