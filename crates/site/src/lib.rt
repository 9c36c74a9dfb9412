// A site decoded once, before the search, into arrays of plain numbers (`Site`). `specs/Site` says which problem of the rules they hold.
#![tactic(auto)]

ghost use Rattle.std.specs.Prelude.{◌≡◌, replicate};

mod decoding;

pub use decoding::{decode, decode_with, write_unit};

// A decoded site. Its units are in three arrays:
//   coefficients  c0, c1, c2, b and 100,000,000 − b1 of unit i, from 5 × i on: none is negative;
//   ends          low and high of region k, from 2 × k on. Unit i has some of the regions 6 × i to 6 × i + 5: 0..0 if it may stand,
//                 then those that zones and ramp window leave, ascending. What stands in the others means nothing;
//   ranges        the first and the last region of unit i, from 2 × i on.
#[derive(Drop)]
pub struct Site {
    pub coefficients: [u64; 160],
    pub ends: [u16; 384],
    pub ranges: [u8; 64],
    // The number of units, and the net that covers the demand.
    pub count: usize,
    pub target: u64,
}

impl Site {
    // A site of no units, to be written by decoding.
    pub fn empty() -> Site
        ensures { result ≡ record { coefficients = replicate 160 0; ends = replicate 384 0; ranges = replicate 64 0; count = 0; target = 0 } }
    {
        Site {
            coefficients: [0; 160],
            ends: [0; 384],
            ranges: [0; 64],
            count: 0,
            target: 0,
        }
    }
}
