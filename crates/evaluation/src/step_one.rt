// Step 1 on a decoded site, and from a case file's bytes: decoded, then step 1.
ghost use Rattle.evaluation.specs.Clauses.{SiteHeld, StepOne, FindsFirst};

use crate::Sums;
use crate::totals::greatest_outputs;
use rules::Refusal;
use site::Site;

// Step 1 on a decoded site: writes the greatest outputs and gives their cost and net, if that covers the demand.
pub fn step1(site: &Site, outputs: &mut [u16; 32]) -> Result<Sums, Refusal>
    requires { SiteHeld site.now.coefficients site.now.ends site.now.ranges site.now.count }
    ensures { StepOne site.now.coefficients site.now.ends site.now.ranges site.now.count site.now.target outputs.new result }
{
    let first = greatest_outputs(site, outputs);
    if first.net < site.target {
        return Err(Refusal::NoAllocation);
    }
    Ok(first)
}

// Checks and decodes a case file and runs step 1: writes the site and the greatest outputs and gives their cost and net, or
// refuses the case; what then stands in the site means nothing.
pub fn first_best(file: &[u8], site: &mut Site, outputs: &mut [u16; 32]) -> Result<Sums, Refusal>
    ensures { FindsFirst file.now site.new.coefficients site.new.ends site.new.ranges site.new.count site.new.target outputs.new result }
{
    site::decode(file, site)?;
    step1(site, outputs)
}
