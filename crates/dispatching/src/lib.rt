// Dispatch, from a case file's bytes to the reply's: check and decode, solve (crate `solving`), write.
#![tactic(auto)]

ghost use Rattle.std.specs.Prelude.{Ok, ◌≡◌, ◌≤◌, length};
ghost use Rattle.rules.specs.Refusal.{file_verdict};
ghost use Rattle.rules.specs.Calls.{dispatched};
ghost use Rattle.rules.specs.Promise.{Promise};

mod reply;

use bisection::Allocation;
use evaluation::Sums;
use reply::write_reply;
pub use reply::{Amounts, write_amounts, write_numbers};
use rules::Refusal;
use site::Site;

// Dispatches the case file: writes the reply and gives its length, or refuses and leaves the reply's bytes as they were.
#[tactic(auto, using(crate::proofs::Endings::short))]
pub fn dispatch(file: &[u8], reply: &mut [u8]) -> Result<usize, Refusal>
    ensures outcome { dispatched file.now reply.old ≡ record { answer = result; reply = reply.new } }
    ensures promise { file_verdict file.now ≡ Ok tt → 92 ≤ length reply.old → Promise file.now (record { answer = result; reply = reply.new }) }
{
    if reply.len() < 92 {
        return Err(Refusal::BufferTooShort);
    }
    let mut site = Site::empty();
    let mut outputs = [0u16; 32];
    let Sums { cost, net } = evaluation::first_best(file, &mut site, &mut outputs)?;
    let best = Allocation { outputs, cost, net };
    Ok(write_reply(reply, site.count, solving::solve(&site, best)))
}
