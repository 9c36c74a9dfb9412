// A run's 41 numbers: whether they fit together, and a started run read from them and written to them.
ghost use Rattle.std.specs.Prelude.{◌≡◌, true, ◌≤◌, length, take, replicate};
ghost use Rattle.rules.specs.Lists.{over};
ghost use Rattle.stepping.specs.Runs.{run_in, numbers_of, width_at, begun, stage_fits, amounts_fit, outputs_fit};
ghost use Rattle.stepping.specs.Clauses.{run_of};

// The numbers of a started run. (`finished` is 1 or 0, as in the array that C lends, whose numbers these are.)
#[derive(Clone, Copy)]
pub struct Numbers {
    pub finished: u64,
    pub evaluations: u64,
    pub low: u64,
    pub cost: u64,
    pub surplus: u64,
    pub floor: u64,
    pub count: u64,
    pub length: u64,
    pub outputs: [u16; 32],
}

// How far the next multiplier lies above the low end after so many evaluations; 131,072 before the first, which is of 0.
pub fn width_at(evaluations: u64) -> u64
    requires { evaluations ≤ 18 }
    ensures { result ≡ width_at evaluations }
{
    131072 >> evaluations
}

// Whether an unfinished run has an evaluation left, and its low end fits the number of evaluations.
fn stage_fits(finished: u64, evaluations: u64, low: u64) -> bool
    ensures { result ≡ stage_fits finished evaluations low }
{
    evaluations <= 18
        && (finished == 1
            || (finished == 0
                && evaluations < 18
                && (low == 0 || (low <= 65536 && low + 2 * width_at(evaluations) <= 65536))))
}

// Whether cost, surplus, floor, count and length are in range.
fn amounts_fit(cost: u64, surplus: u64, floor: u64, count: u64, length: u64) -> bool
    ensures { result ≡ amounts_fit cost surplus floor count length }
{
    cost <= 35200000000000
        && surplus <= 35200000000000
        && floor <= 35200000000000
        && 0 < count
        && count <= 32
        && length <= 1608
}

// Whether each output is in range.
fn outputs_fit(outputs: &[u64]) -> bool
    ensures { result ≡ outputs_fit outputs.now }
{
    outputs.iter().all(|p| *p <= 10000)
}

// Whether a run counts as started.
pub fn is_begun(run: &[u64]) -> bool
    requires { length run.now ≡ 41 }
    ensures { result ≡ begun (run_in run.now) }
{
    run[0] == 1
        && stage_fits(run[1], run[2], run[3])
        && amounts_fit(run[4], run[5], run[6], run[7], run[8])
        && outputs_fit(&run[9..])
}

// A list of 32 outputs in range as an array.
fn outputs_in(list: &[u64]) -> [u16; 32]
    requires { (length list.now ≡ 32) × (outputs_fit list.now ≡ true) }
    ensures { result ≡ list.now }
{
    let mut outputs = [0u16; 32];
    // (indices: two lists of different widths)
    for i in 0..32 {
        outputs[i] = list[i] as u16;
    }
    outputs
}

// The first `n` outputs, and zeros behind them.
pub fn first_outputs(outputs: [u16; 32], n: usize) -> [u16; 32]
    requires { n ≤ 32 }
    ensures { result ≡ over (take n outputs) (replicate 32 0) }
{
    let mut first = [0u16; 32];
    first[..n].copy_from_slice(&outputs[..n]);
    first
}

// The numbers of a run that counts as started.
pub fn read(run: &[u64]) -> Numbers
    requires { (length run.now ≡ 41) × (begun (run_in run.now) ≡ true) }
    ensures { run_of result ≡ run_in run.now }
{
    let outputs = outputs_in(&run[9..]);
    Numbers {
        finished: run[1],
        evaluations: run[2],
        low: run[3],
        cost: run[4],
        surplus: run[5],
        floor: run[6],
        count: run[7],
        length: run[8],
        outputs,
    }
}

// Writes an array of outputs over a list of 32.
fn write_outputs(list: &mut [u64], outputs: [u16; 32])
    requires { length list.old ≡ 32 }
    ensures { list.new ≡ outputs }
{
    // (indices: two lists of different widths)
    for i in 0..32 {
        list[i] = outputs[i] as u64;
    }
}

// Writes a started run with these numbers.
pub fn write(run: &mut [u64], n: Numbers)
    requires { length run.old ≡ 41 }
    ensures { run.new ≡ numbers_of (run_of n) }
{
    run[..9].copy_from_slice(&[
        1,
        n.finished,
        n.evaluations,
        n.low,
        n.cost,
        n.surplus,
        n.floor,
        n.count,
        n.length,
    ]);
    write_outputs(&mut run[9..], n.outputs);
}
