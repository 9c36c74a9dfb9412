// The choice of one unit of a decoded site (crate `site`) at a multiplier, by its curve (crate `curve`): the output of least priced cost,
// with the least output that ties with it.
#![tactic(auto)]

mod choosing;

pub use choosing::choose;

// A unit's outputs of least priced cost: the greatest, which is its choice, and the least, to which it may be lowered; `tied` is false
// only where the two are one.
// (the flag beside the two outputs: two 16-bit fields alone are slower, as measured in decision 52 of docs/DECISIONS.md)
#[derive(Clone, Copy)]
pub struct Choice {
    pub greatest: u16,
    pub least: u16,
    pub tied: bool,
}
