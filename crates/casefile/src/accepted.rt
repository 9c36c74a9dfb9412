// Reading an accepted case file: the demand, the unit count and each unit, which together are the file's case.
#![tactic(auto, using(crate::proofs::File::accepted))]

ghost use Rattle.std.specs.Prelude.{Ok, ◌≡◌, ◌<◌};
ghost use Rattle.rules.specs.Layout.{count, demand, unit_at};
ghost use Rattle.rules.specs.Refusal.{file_verdict};
ghost use Rattle.unit.specs.UnitHeld.{unit_held};

use crate::checking::body_of;
use bodies::read_body;
use unit::Unit;

// The demand, in steps.
pub fn demand(file: &[u8]) -> u32
    requires { file_verdict file.now ≡ Ok tt }
    ensures { result ≡ demand file.now }
{
    fields::read::<u32>(file, 4)
}

// How many units there are.
pub fn count(file: &[u8]) -> usize
    requires { file_verdict file.now ≡ Ok tt }
    ensures { result ≡ count file.now }
{
    usize::from(fields::read::<u16>(file, 2))
}

// Unit `i`, counted from 0.
pub fn read_unit(file: &[u8], i: usize) -> Unit
    requires file_value { file_verdict file.now ≡ Ok tt }
    requires i_bound { i < count file.now }
    ensures { unit_held result ≡ unit_at file.now i }
{
    let edition = fields::read::<u16>(file, 0);
    read_body(body_of(file, i), edition)
}
