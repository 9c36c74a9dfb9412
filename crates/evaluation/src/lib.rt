// All units of a decoded site (crate `site`) together: their choices (crate `choice`) with the sums, the dual value and its floor; and
// step 1, on a decoded site and from a file's bytes. Each number is in range on 64 bits and equal to what crate `rules` defines.
#![tactic(auto)]

mod step_one;
mod totals;

pub use step_one::{first_best, step1};
pub use totals::{dual_of, evaluate, floor_of};

// Cost and net of outputs together.
#[derive(Clone, Copy)]
pub struct Sums {
    pub cost: u64,
    pub net: u64,
}

// What an evaluation gives besides its arrays: cost and net of the choices together, and how many units tie; it is promised that 0 is
// given only where no unit has a lower tied output.
#[derive(Clone, Copy)]
pub struct Evaluated {
    pub cost: u64,
    pub net: u64,
    pub ties: u64,
}
