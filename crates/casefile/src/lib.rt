// Case files, as section 2 of docs/SPECIFICATION.md lays them out: checking one, and reading one that is accepted.
// A caller that decodes a file checks it place by place, and reads each body once (crate `bodies`).
// What each function answers is equated with the definitions of crate `rules`.
#![tactic(auto)]

mod accepted;
mod checking;

pub use accepted::{count, demand, read_unit};
pub use checking::{body_fits, body_of, check, check_contents, check_edition, check_head};
