// A unit and its checks, refusals 7 to 10 and 18. They serve the bodies of a file and the planner's rows alike.
#![tactic(auto)]

ghost use Rattle.std.specs.Prelude.{◌≡◌, false, ◌≤◌};
ghost use Rattle.rules.specs.Unit.{zones, with_previous};
ghost use Rattle.rules.specs.Refusal.{starts_above, zones_ascend, zone_count_invalid, coefficient_out_of_range, losses_out_of_range, limits_invalid, ramp_or_mark_out_of_range, unit_verdict};
ghost use Rattle.unit.specs.UnitHeld.{unit_held};

use rules::Refusal;

// A unit as the nineteen numbers of a row, and b1, which stands beside the rows or is 0.
#[derive(Clone, Copy)]
pub struct Unit {
    pub c0: u32,
    pub c1: u32,
    pub c2: u32,
    pub b: u32,
    pub b1: i32,
    pub least: u32,
    pub greatest: u32,
    pub previous: u32,
    pub up: u32,
    pub down: u32,
    pub mark: u32,
    pub zone_count: u32,
    pub edges: [u32; 8],
}

// The unit with another previous output.
#[tactic(auto, unfolding(rules::specs::Unit::with_previous))]
pub fn with_previous(u: Unit, p: u16) -> Unit
    ensures { unit_held result ≡ with_previous (unit_held u) p }
{
    Unit {
        previous: u32::from(p),
        ..u
    }
}

// Refusal 7: too many zones, or an unused edge that is not zero.
fn zone_count_invalid(u: Unit) -> bool
    ensures { result ≡ zone_count_invalid (unit_held u) }
{
    let used = 2 * u.zone_count as usize;
    let edges = u.edges;
    u.zone_count > 4 || !edges.iter().skip(used).all(|edge| *edge == 0)
}

// Refusal 8: a coefficient above its limit.
fn coefficient_out_of_range(u: Unit) -> bool
    ensures { result ≡ coefficient_out_of_range (unit_held u) }
{
    u.c0 > 1000000000 || u.c1 > 10000000 || u.c2 > 1000 || u.b > 5000
}

// Refusal 18: b1 out of range, or losses so large that net does not rise with the output.
fn losses_out_of_range(u: Unit) -> bool
    ensures { result ≡ losses_out_of_range (unit_held u) }
{
    u.b1 < -10000000 || u.b1 > 10000000 || i64::from(u.b1) + 19999 * i64::from(u.b) >= 100000000
}

// Whether the first zone starts above the least output.
fn starts_above(u: Unit) -> bool
    ensures { result ≡ starts_above u.least (zones (unit_held u)) }
{
    u.zone_count == 0 || u.least < u.edges[0]
}

// Whether the zones lie between least and greatest output, in order; two may share an edge.
fn zones_ascend(u: Unit) -> bool
    requires { (unit_held u).zone_count ≤ 4 }
    ensures { result ≡ zones_ascend u.least (zones (unit_held u)) u.greatest }
{
    let edges = u.edges;
    let mut below = u.least;
    for k in 0..u.zone_count as usize {
        let lower = edges[2 * k];
        let upper = edges[2 * k + 1];
        if lower < below || upper <= lower {
            return false;
        }
        below = upper;
    }
    below < u.greatest
}

// Refusal 9: least, greatest or an edge out of range or order.
fn limits_invalid(u: Unit) -> bool
    requires { (unit_held u).zone_count ≤ 4 }
    ensures { result ≡ limits_invalid (unit_held u) }
{
    u.least < 1
        || u.greatest <= u.least
        || u.greatest > 10000
        || !starts_above(u)
        || !zones_ascend(u)
}

// Refusal 10: previous output, up step, down step or mark out of range.
fn ramp_or_mark_out_of_range(u: Unit) -> bool
    ensures { result ≡ ramp_or_mark_out_of_range (unit_held u) }
{
    u.previous > 10000 || u.up > 10000 || u.down > 10000 || u.mark > 1
}

// The first refusal of a unit whose zone count and unused edges are right.
#[tactic(auto, unfolding(rules::specs::Refusal::unit_verdict))]
pub fn check_numbers(u: Unit) -> Result<(), Refusal>
    requires { zone_count_invalid (unit_held u) ≡ false }
    ensures { result ≡ unit_verdict (unit_held u) }
{
    if coefficient_out_of_range(u) {
        return Err(Refusal::CoefficientOutOfRange);
    }
    if losses_out_of_range(u) {
        return Err(Refusal::LossesOutOfRange);
    }
    if limits_invalid(u) {
        return Err(Refusal::LimitsInvalid);
    }
    if ramp_or_mark_out_of_range(u) {
        return Err(Refusal::RampOrMarkOutOfRange);
    }
    Ok(())
}

// The first refusal of a unit.
#[tactic(auto, unfolding(rules::specs::Refusal::unit_verdict))]
pub fn check_unit(u: Unit) -> Result<(), Refusal>
    ensures { result ≡ unit_verdict (unit_held u) }
{
    if zone_count_invalid(u) {
        return Err(Refusal::ZoneCountInvalid);
    }
    check_numbers(u)
}
