// Checks and decodes a case file, each body read once. What writes one array takes it as a slice: so its length is known to the proof.
ghost use Rattle.std.specs.Prelude.{◌≡◌, ◌+◌, ◌*◌, ◌≤◌, ◌<◌, length};
ghost use Rattle.rules.specs.Unit.{linear_factor};
ghost use Rattle.rules.specs.Sound.{Sound};
ghost use Rattle.unit.specs.UnitHeld.{unit_held};
ghost use Rattle.site.specs.Clauses.{UnitWritable, CoefficientsWritten, RangeWritten, UnitWritten, BodiesNamed, Decodes, unit_with, PreviousGiven, UnitsDecoded};

use crate::Site;
use rules::Refusal;
use unit::Unit;

// What a step of output nets before quadratic losses: 100,000,000 − b1.
fn linear_factor(u: Unit) -> u64
    requires { Sound (unit_held u) }
    ensures { result ≡ linear_factor (unit_held u) }
{
    (100000000 - u.b1 as i64) as u64
}

// Writes the coefficients of unit `i`.
fn write_coefficients(u: Unit, i: usize, coefficients: &mut [u64])
    requires { Sound (unit_held u) × (5 * i + 5 ≤ length coefficients.old) }
    ensures { CoefficientsWritten (unit_held u) i coefficients.old coefficients.new }
{
    let Unit { c0, c1, c2, b, .. } = u;
    let held = [
        u64::from(c0),
        u64::from(c1),
        u64::from(c2),
        u64::from(b),
        linear_factor(u),
    ];
    let k = 5 * i;
    coefficients[k..k + 5].copy_from_slice(&held);
}

// Writes the first and the last region of unit `i`.
fn write_range(i: usize, first: usize, last: usize, ranges: &mut [u8])
    requires { (2 * i + 2 ≤ length ranges.old) × (first < 256) × (last < 256) }
    ensures { RangeWritten i first last ranges.old ranges.new }
{
    let k = 2 * i;
    ranges[k..k + 2].copy_from_slice(&[first as u8, last as u8]);
}

// Writes unit `i` into the arrays, and leaves the number of units and the net; gives whether it has a permitted output.
pub fn write_unit(u: Unit, i: usize, site: &mut Site) -> bool
    requires { UnitWritable (unit_held u) i }
    ensures { UnitWritten (unit_held u) i site.old.coefficients site.old.ends site.old.ranges site.new.coefficients site.new.ends site.new.ranges result × (site.new.count ≡ site.old.count) × (site.new.target ≡ site.old.target) }
{
    write_coefficients(u, i, &mut site.coefficients);
    let start = 6 * i;
    let next = regions::write_regions(u, start, &mut site.ends);
    if next == start {
        return false;
    }
    write_range(i, start, next - 1, &mut site.ranges);
    true
}

// Checks and decodes the bodies of a file whose head and contents are accepted.
fn decode_bodies(file: &[u8], edition: u16, n: usize, site: &mut Site) -> Result<(), Refusal>
    requires { BodiesNamed file.now edition n }
    ensures { Decodes file.now site.new.coefficients site.new.ends site.new.ranges site.new.count site.new.target result }
{
    let mut permitted = true;
    for i in 0..n {
        let body = casefile::body_of(file, i);
        if !casefile::body_fits(body, edition) {
            return Err(Refusal::ZoneCountInvalid);
        }
        let u = bodies::read_body(body, edition);
        unit::check_numbers(u)?;
        permitted &= write_unit(u, i, site);
    }
    if !permitted {
        return Err(Refusal::NoAllocation);
    }
    site.count = n;
    site.target = 100000000 * fields::read::<u32>(file, 4) as u64;
    Ok(())
}

// Decodes the `n` units of an accepted file with other previous outputs, for another demand; gives whether each has a permitted output.
pub fn decode_with(
    file: &[u8],
    n: usize,
    previous: &[u16; 32],
    demand: u32,
    site: &mut Site,
) -> bool
    requires { PreviousGiven file.now n previous.now }
    ensures { UnitsDecoded (unit_with file.now previous.now) n site.new.coefficients site.new.ends site.new.ranges result × (site.new.count ≡ n) × (site.new.target ≡ 100000000 * demand) }
{
    let mut all_permitted = true;
    for i in 0..n {
        let u = unit::with_previous(casefile::read_unit(file, i), previous[i]);
        all_permitted &= write_unit(u, i, site);
    }
    site.count = n;
    site.target = 100000000 * demand as u64;
    all_permitted
}

// Checks and decodes a file. A unit without a permitted output is refused once every body is checked; what then stands in the site
// means nothing.
pub fn decode(file: &[u8], site: &mut Site) -> Result<(), Refusal>
    ensures { Decodes file.now site.new.coefficients site.new.ends site.new.ranges site.new.count site.new.target result }
{
    casefile::check_head(file)?;
    let edition = fields::read::<u16>(file, 0);
    let n = fields::read::<u16>(file, 2) as usize;
    casefile::check_contents(file, n)?;
    decode_bodies(file, edition, n, site)
}
