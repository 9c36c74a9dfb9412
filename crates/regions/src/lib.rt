// A checked unit's permitted outputs as regions, found once: 0..0 if it may stand, then what zones and ramp window leave. From here
// on an output is a 16-bit number, until it is multiplied.
#![tactic(auto)]

ghost use Rattle.std.specs.Prelude.{◌≡◌, ℕ, ◌+◌, ◌*◌, ◌≤◌, leb, length, get_or, slice_set};
ghost use Rattle.std.specs.Int.{from_bool};
ghost use Rattle.rules.specs.Sound.{Sound};
ghost use Rattle.unit.specs.UnitHeld.{unit_held};
ghost use Rattle.regions.specs.Clauses.{Ramped, RegionsWritten};

use unit::Unit;

// The running outputs that the ramp limits leave.
#[derive(Clone, Copy)]
struct Window {
    from: u16,
    to: u16,
}

// The edges of a checked unit in 16 bits.
fn narrow(edges: [u32; 8]) -> [u16; 8]
    requires { (k : ℕ) → get_or edges k 0 ≤ 10000 }
    ensures { result ≡ edges }
{
    let mut narrowed = [0u16; 8];
    for k in 0..8 {
        narrowed[k] = edges[k] as u16;
    }
    narrowed
}

// From previous − down to previous + up, at most 20,000, if the previous output is above 0, else all.
fn ramp_window(greatest: u16, previous: u16, up: u16, down: u16) -> Window
    requires { (previous ≤ 10000) × (up ≤ 10000) }
    ensures { Ramped greatest previous up down result }
{
    if previous == 0 {
        return Window {
            from: 0,
            to: greatest,
        };
    }
    let to = previous + up;
    Window {
        from: previous.saturating_sub(down),
        to,
    }
}

// Writes region `next`, from `low` to `high`, and gives the region after it. An empty one is not counted, and the next is written
// over it.
fn write_region(ends: &mut [u16], next: usize, low: u16, high: u16) -> usize
    requires { 2 * next + 2 ≤ length ends.old }
    ensures written { ends.new ≡ slice_set (slice_set ends.old (2 * next) low) (2 * next + 1) high }
    ensures counted { result ≡ next + from_bool (leb low high) }
{
    ends[2 * next] = low;
    ends[2 * next + 1] = high;
    next + usize::from(low <= high)
}

// Writes the regions of a unit from region `start` on, and gives the region after the last: 0..0 if it may stand; then from the
// least output to the first zone, from zone to zone, and from the last zone to the greatest output, each cut to the ramp window.
pub fn write_regions(u: Unit, start: usize, ends: &mut [u16]) -> usize
    requires { Sound (unit_held u) × (2 * start + 12 ≤ length ends.old) }
    ensures { RegionsWritten (unit_held u) start ends.old ends.new result }
{
    let zones = u.zone_count as usize;
    let lowest = u.least as u16;
    let highest = u.greatest as u16;
    let ramp = ramp_window(highest, u.previous as u16, u.up as u16, u.down as u16);
    let edges = narrow(u.edges);
    ends[2 * start] = 0;
    ends[2 * start + 1] = 0;
    let mut next = start + usize::from(u.mark == 0);
    let mut from = lowest;
    for k in 0..zones {
        next = write_region(ends, next, from.max(ramp.from), edges[2 * k].min(ramp.to));
        from = edges[2 * k + 1];
    }
    write_region(ends, next, from.max(ramp.from), highest.min(ramp.to))
}
