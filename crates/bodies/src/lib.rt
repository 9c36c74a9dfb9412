// Reading a unit from a body of a file (rules 2.6 and 2.10 of docs/SPECIFICATION.md). Edition 2 has b1 before the edges; all else
// is as in edition 1.
#![tactic(auto)]

ghost use Rattle.std.specs.Prelude.{◌≡◌, ◌+◌, ◌≤◌, length};
ghost use Rattle.fields.specs.Field.{field};
ghost use Rattle.rules.specs.Lists.{each};
ghost use Rattle.rules.specs.Layout.{linear_loss, edges_start, edge_of_body, unit_of_body, body_length};
ghost use Rattle.unit.specs.UnitHeld.{unit_held};
ghost use Rattle.bodies.specs.Clauses.{BodyFits};

use unit::Unit;

// The 16 bits of a body from `at` on.
fn read_word(body: &[u8], at: usize) -> u32
    requires { at + 2 ≤ length body.now }
    ensures { result ≡ field body.now at 2 }
{
    u32::from(fields::read::<u16>(body, at))
}

// Where the edges of a body start.
pub fn edges_start(edition: u16) -> usize
    ensures { (result ≡ edges_start edition) × (26 ≤ result) × (result ≤ 30) }
{
    if edition == 2 { 30 } else { 26 }
}

// The linear loss coefficient b1 of a body, 0 in edition 1.
fn read_linear_loss(body: &[u8], edition: u16) -> i32
    requires { edges_start edition ≤ length body.now }
    ensures { result ≡ linear_loss edition body.now }
{
    if edition == 2 {
        fields::read::<i32>(body, 26)
    } else {
        0
    }
}

// The edges of a body with `z` zones, zero where unused.
#[tactic(auto, unfolding(rules::specs::Layout::edge_of_body))]
fn read_edges(body: &[u8], edition: u16, z: usize) -> [u32; 8]
    requires { (z ≤ 4) × (body_length edition z ≤ length body.now) }
    ensures { result ≡ each 8 (edge_of_body edition body.now z) }
{
    let start = edges_start(edition);
    let mut edges = [0u32; 8];
    for k in 0..2 * z {
        edges[k] = read_word(body, start + 2 * k);
    }
    edges
}

// The numbers of a body.
#[tactic(auto, unfolding(rules::specs::Layout::unit_of_body))]
pub fn read_body(body: &[u8], edition: u16) -> Unit
    requires { BodyFits edition body.now }
    ensures { unit_held result ≡ unit_of_body edition body.now }
{
    let zone_count = read_word(body, 24);
    Unit {
        c0: fields::read::<u32>(body, 0),
        c1: fields::read::<u32>(body, 4),
        c2: read_word(body, 8),
        b: read_word(body, 10),
        b1: read_linear_loss(body, edition),
        least: read_word(body, 12),
        greatest: read_word(body, 14),
        previous: read_word(body, 16),
        up: read_word(body, 18),
        down: read_word(body, 20),
        mark: read_word(body, 22),
        zone_count,
        edges: read_edges(body, edition, zone_count as usize),
    }
}
