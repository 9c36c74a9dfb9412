// What start, advance and ask of a run answer in C: a number, and answers in a lent list (rule 23.4 of docs/SPECIFICATION.md).
#![tactic(auto)]

ghost use Rattle.std.specs.Prelude.{◌≡◌, map, ◌≤◌, pos, length};
ghost use Rattle.rules.specs.Lists.{over};
ghost use Rattle.stepping.specs.Runs.{asked};
ghost use Rattle.answering.specs.Answers.{number_of_started, number_of_advanced, answers_of_advanced, number_of_state, numbers_asked};

use rules::Refusal;
use stepping::State;

// The number of a start's answer.
pub fn tell_started(s: Result<(), Refusal>) -> u32
    ensures { result ≡ number_of_started s }
{
    match s {
        Ok(()) => 0,
        Err(r) => refusal_number::number(r),
    }
}

// Writes the state that an advance tells, and gives its number.
pub fn tell_advanced(a: Result<State, Refusal>, answers: &mut [i64]) -> u32
    requires { 1 ≤ length answers.old }
    ensures { (result ≡ number_of_advanced a) × (answers.new ≡ answers_of_advanced a answers.old) }
{
    match a {
        Ok(state) => {
            answers[0] = number_of_state(state) as i64;
            0
        }
        Err(r) => refusal_number::number(r),
    }
}

// The number of a state.
fn number_of_state(s: State) -> u32
    ensures { result ≡ number_of_state s }
{
    match s {
        State::NotStarted => 0,
        State::Unfinished => 1,
        State::Finished => 2,
    }
}

// Writes the outputs to the start of a list.
fn write_outputs(list: &mut [i64], outputs: [u16; 32])
    requires { 32 ≤ length list.old }
    ensures { list.new ≡ over (map pos outputs) list.old }
{
    // (indices: two lists of different widths)
    for i in 0..32 {
        list[i] = outputs[i] as i64;
    }
}

// Asks a run, and writes what it tells.
pub fn tell_asked(run: &[u64; 41], answers: &mut [i64])
    requires { 38 ≤ length answers.old }
    ensures { answers.new ≡ over (numbers_asked (asked run.now)) answers.old }
{
    let told = stepping::ask(run);
    answers[..6].copy_from_slice(&[
        number_of_state(told.state) as i64,
        told.count as i64,
        told.evaluations as i64,
        told.cost as i64,
        told.gap as i64,
        told.surplus as i64,
    ]);
    write_outputs(&mut answers[6..], told.outputs);
}
