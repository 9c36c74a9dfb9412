// One unit of a decoded site (crate `site`) at an output: its cost, its net, and its priced cost at a multiplier as a curve. Each number
// is in range on 64 bits and equal to what crate `rules` defines.
#![tactic(auto)]

ghost use Rattle.std.specs.Prelude.{◌≡◌, ◌≤◌};
ghost use Rattle.rules.specs.Unit.{Unit, cost, net};
ghost use Rattle.site.specs.Site.{Coefficients};
ghost use Rattle.curve.specs.Curve.{height, InRange, IsCurve};
ghost use Rattle.curve.specs.Clauses.{AtOutput, AtMultiplier};

// A unit's priced cost at a multiplier: square × p × p + linear × p + constant at a running output p.
#[derive(Clone, Copy)]
pub struct Curve {
    pub square: u64,
    pub linear: i64,
    pub constant: u64,
}

// The cost of unit `i` at output `p`: nothing where it stands.
pub fn cost_of(coefficients: &[u64; 160], i: usize, p: u16) -> u64
    requires { AtOutput coefficients.now i p }
    ensures { (u : Unit) → Coefficients coefficients.now i u → result ≡ cost u p }
{
    let stands = p == 0;
    if stands {
        return 0;
    }
    let k = 5 * i;
    let x = p as u64;
    coefficients[k] + (coefficients[k + 1] + coefficients[k + 2] * x) * x
}

// The net of unit `i` at output `p`.
pub fn net_of(coefficients: &[u64; 160], i: usize, p: u16) -> u64
    requires { AtOutput coefficients.now i p }
    ensures { (u : Unit) → Coefficients coefficients.now i u → result ≡ net u p }
{
    let k = 5 * i;
    let x = p as u64;
    (coefficients[k + 4] - coefficients[k + 3] * x) * x
}

// The priced cost of unit `i` at multiplier `m`, where it runs.
pub fn curve_of(coefficients: &[u64; 160], i: usize, m: u64) -> Curve
    requires { AtMultiplier coefficients.now i m }
    ensures { InRange result × ((u : Unit) → Coefficients coefficients.now i u → IsCurve m u result) }
{
    let k = 5 * i;
    Curve {
        square: 100000 * coefficients[k + 2] + m * coefficients[k + 3],
        linear: (100000 * coefficients[k + 1]) as i64 - (coefficients[k + 4] * m) as i64,
        constant: 100000 * coefficients[k],
    }
}

// The priced cost at a running output `p`.
pub fn priced_cost(c: Curve, p: u16) -> i64
    requires { InRange c × (p ≤ 10000) }
    ensures { result ≡ height c p }
{
    let Curve {
        square,
        linear,
        constant,
    } = c;
    let x = p as i64;
    (square as i64 * x + linear) * x + constant as i64
}
