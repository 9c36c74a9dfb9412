// Unpacking: the planner's rows of a case file of edition 1. (A row has no place for b1.)
#![tactic(auto)]

ghost use Rattle.std.specs.Prelude.{Ok, ◌≡◌, ◌*◌, ◌≤◌, length};
ghost use Rattle.rules.specs.Lists.{each, over};
ghost use Rattle.rules.specs.Layout.{row_of_unit, rows_of_units, count, unit_at};
ghost use Rattle.rules.specs.Refusal.{file_verdict};
ghost use Rattle.rules.specs.Calls.{unpacked};
ghost use Rattle.unit.specs.UnitHeld.{unit_held};

use casefile::{check, check_edition, count, demand, read_unit};
use rules::{Refusal, Unpacked};
use unit::Unit;

// The numbers of a unit in a row's order.
fn row_of(u: Unit) -> [u32; 19]
    ensures { result ≡ row_of_unit (unit_held u) }
{
    let numbers = [
        u.c0,
        u.c1,
        u.c2,
        u.b,
        u.least,
        u.greatest,
        u.previous,
        u.up,
        u.down,
        u.mark,
        u.zone_count,
    ];
    let mut row = [0; 19];
    row[..11].copy_from_slice(&numbers);
    row[11..].copy_from_slice(&u.edges);
    row
}

// Writes the rows of the first `n` units of an accepted file.
fn write_rows(file: &[u8], rows: &mut [u32], n: usize)
    requires file_value { file_verdict file.now ≡ Ok tt }
    requires n_bound { (n ≤ count file.now) × (19 * n ≤ length rows.old) }
    ensures { rows.new ≡ over (rows_of_units (each n (unit_at file.now))) rows.old }
{
    for i in 0..n {
        let at = 19 * i;
        let row = row_of(read_unit(file, i));
        rows[at..at + 19].copy_from_slice(&row);
    }
}

// The demand and the unit count of a file, and its rows at the start of `rows`.
pub fn unpack(file: &[u8], rows: &mut [u32]) -> Result<Unpacked, Refusal>
    ensures { unpacked file.now rows.old ≡ record { answer = result; rows = rows.new } }
{
    let short = rows.len() < 608;
    if short {
        return Err(Refusal::BufferTooShort);
    }
    check_edition(file, 1)?;
    check(file)?;
    let n = count(file);
    write_rows(file, rows, n);
    Ok(Unpacked {
        demand: demand(file),
        count: n as u32,
    })
}
