// Floors for other demands than the case's: how far a forecast error moves the bill, at least (section 20 of docs/SPECIFICATION.md).
// One search gives the multipliers and their dual values; each demand then takes one look at these.
#![tactic(auto)]

ghost use Rattle.std.specs.Prelude.{◌≡◌, ◌*◌, ◌≤◌, pos, ◌-ℤ◌, length};
ghost use Rattle.sensitivity.specs.Floors.{floored};
ghost use Rattle.sensitivity.specs.Clauses.{Shifted, Traced, GreatestDual, FloorsWritable, FloorsWritten};

use bisection::Allocation;
use evaluation::Sums;
use rules::Refusal;
use site::Site;

// By how much the net that covers demand `d` is above `target`.
fn shift(target: u64, d: u32) -> i64
    requires { (target ≤ 32000000000000) × (d ≤ 320000) }
    ensures { result ≡ pos (100000000 * d) -ℤ pos target }
{
    (100000000 * u64::from(d)) as i64 - target as i64
}

// The greatest of the dual values in a trace of `count` pairs, each carried by `shift` times its multiplier.
fn greatest_dual(trace: &[i64], count: usize, shift: i64) -> i64
    requires { Traced trace.now count × Shifted shift }
    ensures { GreatestDual trace.now count shift result }
{
    let mut greatest = trace[1] + trace[0] * shift;
    // (indices: what the search promises of a trace is of the whole lent list, which has room for 18 pairs)
    for k in 1..count {
        greatest = (trace[2 * k + 1] + trace[2 * k] * shift).max(greatest);
    }
    greatest
}

// Writes the floor for each demand to the start of `floors`.
fn write_floors(trace: &[i64], count: usize, target: u64, demands: &[u32], floors: &mut [i64])
    requires { Traced trace.now count × FloorsWritable demands.now floors.old target }
    ensures { FloorsWritten trace.now count target demands.now floors.old floors.new }
{
    for (j, &d) in demands.iter().enumerate() {
        floors[j] = evaluation::floor_of(greatest_dual(trace, count, shift(target, d)));
    }
}

// Writes a floor for each demand to the start of `floors` and tells how many, or refuses and leaves them as they were.
pub fn floors(file: &[u8], demands: &[u32], floors: &mut [i64]) -> Result<usize, Refusal>
    ensures { floored file.now demands.now floors.old ≡ record { answer = result; floors = floors.new } }
{
    if demands::demands_invalid(demands) {
        return Err(Refusal::DemandsInvalid);
    }
    if floors.len() < demands.len() {
        return Err(Refusal::FloorsTooShort);
    }
    let mut site = Site::empty();
    let mut outputs = [0u16; 32];
    let Sums { cost, net } = evaluation::first_best(file, &mut site, &mut outputs)?;
    let best = Allocation { outputs, cost, net };
    let mut trace = [0i64; 36];
    let found = bisection::search(&site, best, &mut trace);
    let evaluations = found.evaluations as usize;
    write_floors(&trace, evaluations, site.target, demands, floors);
    Ok(demands.len())
}
