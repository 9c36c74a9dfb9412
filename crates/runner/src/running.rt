// Each operation on the run: its answer, two sums of the held bytes where these may have changed, and the run's numbers, on one line.
use crate::printing::{decimals, refusal, word};
use std::io::Print;
use stepping::{Asked, State};

// The numbers that are given, 8 bytes each, at the start of the run.
fn put(given: &[u8], run: &mut [u64; 41]) {
    let count = (given.len() / 8).min(41);
    for i in 0..count {
        run[i] = fields::read::<u64>(given, 8 * i);
    }
}

// The bytes that are given behind the 41 numbers, at the start of those held.
fn hold(given: &[u8], held: &mut [u8; 1608]) {
    if given.len() > 328 {
        let end = given.len().min(1936);
        held[..end - 328].copy_from_slice(&given[328..end]);
    }
}

// The sum of the held bytes, and the sum of the sums of the first, the first two and so on. A wrong byte changes both.
fn print_held(out: &impl Print, held: &[u8; 1608]) {
    let mut sum: u64 = 0;
    let mut sums: u64 = 0;
    for byte in held {
        sum += u64::from(*byte);
        sums += sum;
    }
    let _ = print!(out; " {sum} {sums}");
}

fn start(out: &impl Print, file: &[u8], run: &mut [u64; 41], held: &mut [u8; 1608]) {
    match stepping::start(run, held, file) {
        Ok(()) => word(out, "begun"),
        Err(r) => refusal(out, r),
    }
}

fn advance(out: &impl Print, file: &[u8], run: &mut [u64; 41], held: &[u8; 1608]) {
    match stepping::advance(run, held, file) {
        Ok(state) => print_state(out, state),
        Err(r) => refusal(out, r),
    }
}

fn print_state(out: &impl Print, state: State) {
    let name = match state {
        State::NotStarted => "not started",
        State::Unfinished => "unfinished",
        State::Finished => "finished",
    };
    word(out, name);
}

fn ask(out: &impl Print, run: &[u64; 41]) {
    let Asked {
        state,
        count,
        evaluations,
        cost,
        gap,
        surplus,
        outputs,
    } = stepping::ask(run);
    print_state(out, state);
    let _ = print!(out; " {count} {evaluations} {cost} {gap} {surplus}");
    decimals(out, &outputs, 32);
}

// The operation that the record names: its name, its answer and the run.
pub fn operate(
    out: &impl Print,
    call: u16,
    given: &[u8],
    run: &mut [u64; 41],
    held: &mut [u8; 1608],
) {
    match call {
        8 => {
            word(out, "put");
            put(given, run);
            hold(given, held);
            print_held(out, held);
        }
        9 => {
            word(out, "start ");
            start(out, given, run, held);
            print_held(out, held);
        }
        10 => {
            word(out, "advance ");
            advance(out, given, run, held);
        }
        11 => {
            word(out, "ask ");
            ask(out, run);
        }
        _ => word(out, "unknown call"),
    }
    decimals(out, run, 41);
    word(out, "\n");
}
