// The pricing call: the dual value of a multiplier for a case file, and whether its choices cover the demand.
#![tactic(auto)]

ghost use Rattle.std.specs.Prelude.{◌≡◌};
ghost use Rattle.rules.specs.Calls.{priced};

use evaluation::{Evaluated, Sums, dual_of, evaluate, first_best};
use rules::{Priced, Refusal};
use site::Site;

// The dual value of multiplier `m`, and whether its choices cover the demand.
#[tactic(auto, using(evaluation::proofs::Covering::multiplier_refused))]
pub fn price(file: &[u8], m: u32) -> Result<Priced, Refusal>
    ensures { result ≡ priced file.now m }
{
    if m > 65536 {
        return Err(Refusal::MultiplierOutOfRange);
    }
    let mut site = Site::empty();
    let mut outputs = [0u16; 32];
    first_best(file, &mut site, &mut outputs)?;
    let x = m as u64;
    let mut choices = [0u16; 32];
    let mut least = [0u16; 32];
    let Evaluated { cost, net, .. } = evaluate(&site, x, &mut choices, &mut least);
    Ok(Priced {
        dual: dual_of(Sums { cost, net }, site.target, x),
        covers: site.target <= net,
    })
}
