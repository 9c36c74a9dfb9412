// A planner's rows, with a b1 for each beside them in edition 2, and reading a unit from them.
ghost use Rattle.std.specs.Prelude.{◌≡◌, ◌<◌, pos, get_or};
ghost use Rattle.rules.specs.Unit.{with_loss};
ghost use Rattle.rules.specs.Layout.{unit_of_row};
ghost use Rattle.unit.specs.UnitHeld.{unit_held};
ghost use Rattle.packing.specs.Clauses.{row_count, unit_in};

use unit::Unit;

#[derive(Clone, Copy)]
pub struct Rows<'a> {
    pub edition: u16,
    pub numbers: &'a [u32],
    pub b1: &'a [i32],
}

// The numbers of one row, and a b1, which no row has.
fn row_numbers(row: &[u32; 19], b1: i32) -> Unit
    ensures { unit_held result ≡ with_loss (unit_of_row row.now) b1 }
{
    let [
        c0,
        c1,
        c2,
        b,
        least,
        greatest,
        previous,
        up,
        down,
        mark,
        zone_count,
        ..
    ] = *row;
    // (Copied: `edges @ ..` in the pattern gets no generated proof.)
    let mut edges = [0; 8];
    edges.copy_from_slice(&row[11..]);
    Unit {
        c0,
        c1,
        c2,
        b,
        b1,
        least,
        greatest,
        previous,
        up,
        down,
        mark,
        zone_count,
        edges,
    }
}

// The b1 of row `i`, 0 where the list has none.
fn linear_loss(b1: &[i32], i: usize) -> i32
    ensures { result ≡ get_or b1.now i (pos 0) }
{
    b1.get(i).copied().unwrap_or(0)
}

impl Rows<'_> {
    // How many rows there are.
    pub fn count(self) -> usize
        ensures { result ≡ row_count self.entry }
    {
        self.numbers.len() / 19
    }

    // The unit of row `i`, with its b1.
    pub fn unit(self, i: usize) -> Unit
        requires { i < row_count self }
        ensures { unit_held result ≡ unit_in self.entry i }
    {
        let (rows, _) = self.numbers.as_chunks::<19>();
        row_numbers(&rows[i], linear_loss(self.b1, i))
    }
}
