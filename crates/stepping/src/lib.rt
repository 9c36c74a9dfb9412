// A search that its caller advances, one evaluation at a time, and asks in between, and which holds its case (sections 22 and 23 of
// docs/SPECIFICATION.md). A run is 41 numbers that the caller lends: started, finished, evaluations, low, cost, surplus, floor, count,
// length, and 32 outputs; and 1,608 bytes, of which the first `length` are the file of its last accepted start. A run whose numbers
// do not fit together is not started; an advance checks and decodes the case anew, and nothing is decoded from the run.
#![tactic(auto)]

ghost use Rattle.std.specs.Prelude.{◌≡◌, cond, eqb, ◌-◌, ◌≤◌, take};
ghost use Rattle.stepping.specs.declared.State.{State};
ghost use Rattle.std.proofs.Math.ListN as lists;
ghost use Rattle.stepping.specs.Runs.{asked, same, started, advanced_by};
ghost use Rattle.stepping.specs.Clauses.{Advanceable, Evaluates};

mod numbers;

use bisection::{Allocation, SearchState};
use evaluation::Sums;
use numbers::Numbers;
use rules::Refusal;
use site::Site;

// Where a run stands.
#[derive(Clone, Copy)]
pub enum State {
    NotStarted,
    Unfinished,
    Finished,
}

// What a run has so far: all that a reply tells.
#[derive(Clone, Copy)]
pub struct Asked {
    pub state: State,
    pub count: u16,
    pub evaluations: u16,
    pub cost: u64,
    pub gap: u64,
    pub surplus: u64,
    pub outputs: [u16; 32],
}

// Starts a run of the case: the greatest outputs are its best so far, and it holds the file; or refuses and leaves the run as it was.
pub fn start(run: &mut [u64; 41], held: &mut [u8; 1608], file: &[u8]) -> Result<(), Refusal>
    ensures { started run.old held.old file.now ≡ record { answer = result; numbers = run.new; bytes = held.new } }
{
    let mut site = Site::empty();
    let mut outputs = [0u16; 32];
    let Sums { cost, net } = evaluation::first_best(file, &mut site, &mut outputs)?;
    let outputs = numbers::first_outputs(outputs, site.count);
    numbers::write(
        run,
        Numbers {
            finished: 0,
            evaluations: 0,
            low: 0,
            cost,
            surplus: net - site.target,
            floor: 0,
            count: site.count as u64,
            length: file.len() as u64,
            outputs,
        },
    );
    held[..file.len()].copy_from_slice(file);
    Ok(())
}

// One evaluation more of an unfinished run, of the case that the site holds.
fn evaluate_next(before: Numbers, site: &Site) -> Numbers
    requires { Advanceable before site.now.coefficients site.now.ends site.now.ranges site.now.count site.now.target }
    ensures { Evaluates before site.now.coefficients site.now.ends site.now.ranges site.now.count site.now.target result }
{
    let Numbers {
        evaluations,
        low,
        cost,
        surplus,
        floor,
        length,
        outputs,
        ..
    } = before;
    let best = Allocation {
        outputs,
        cost,
        net: surplus + site.target,
    };
    let start = SearchState {
        best,
        floor: floor as i64,
        evaluations: evaluations as u16,
        low,
        width: numbers::width_at(evaluations),
        most: evaluations as u16 + 1,
    };
    let mut trace = [0i64; 0];
    let SearchState {
        best,
        floor,
        evaluations,
        low,
        width,
        ..
    } = bisection::search_from(site, start, &mut trace);
    let Allocation { outputs, cost, net } = best;
    Numbers {
        finished: (width == 0) as u64,
        evaluations: evaluations as u64,
        low,
        cost,
        surplus: net - site.target,
        floor: floor as u64,
        count: site.count as u64,
        length,
        outputs,
    }
}

// Whether the first `length` bytes held are those of the file.
fn same_bytes(held: &[u8], length: usize, file: &[u8]) -> bool
    requires { length ≤ lists.length held.now }
    ensures { result ≡ same (take length held.now) file.now }
{
    if file.len() != length {
        return false;
    }
    let mut different: usize = 0;
    for i in 0..length {
        // (counted, not left at the first: so it is compiled to vector code)
        different += (held[i] != file[i]) as usize;
    }
    different == 0
}

// Makes the next evaluation of a run and tells where the run then stands, if the file is the one that it holds; a run that is not
// started, one that is finished and one whose case is refused stay as they were.
pub fn advance(run: &mut [u64; 41], held: &[u8; 1608], file: &[u8]) -> Result<State, Refusal>
    ensures { advanced_by run.old held.now file.now ≡ record { answer = result; numbers = run.new } }
{
    if !numbers::is_begun(run) {
        return Ok(State::NotStarted);
    }
    let before = numbers::read(run);
    if !same_bytes(held, before.length as usize, file) {
        return Err(Refusal::CaseChanged);
    }
    let mut site = Site::empty();
    let mut outputs = [0u16; 32];
    evaluation::first_best(file, &mut site, &mut outputs)?;
    if before.finished == 1 {
        return Ok(State::Finished);
    }
    let after = evaluate_next(before, &site);
    numbers::write(run, after);
    Ok(state_of(after.finished))
}

// Where a started run stands.
fn state_of(finished: u64) -> State
    ensures { result ≡ cond (eqb finished 1) State.Finished State.Unfinished }
{
    if finished == 1 {
        State::Finished
    } else {
        State::Unfinished
    }
}

// Tells what a run has so far.
pub fn ask(run: &[u64; 41]) -> Asked
    ensures { result ≡ asked run.now }
{
    if !numbers::is_begun(run) {
        return Asked {
            state: State::NotStarted,
            count: 0,
            evaluations: 0,
            cost: 0,
            gap: 0,
            surplus: 0,
            outputs: [0u16; 32],
        };
    }
    let Numbers {
        finished,
        evaluations,
        cost,
        surplus,
        floor,
        count,
        outputs,
        ..
    } = numbers::read(run);
    Asked {
        state: state_of(finished),
        count: count as u16,
        evaluations: evaluations as u16,
        cost,
        gap: cost.saturating_sub(floor),
        surplus,
        outputs,
    }
}
