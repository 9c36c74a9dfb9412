// The panel's calls, as C sees them: a slice is a pointer and then a length, an answer is a number. Each does what the call on
// slices does and tells its answer in numbers (rules 14.1 to 14.4, 18.8, 19.7, 20.8, 21.9, 23.4, 24.11, 25.13). `include/shahfureel.h`
// declares them.
#![tactic(auto)]

ghost use Rattle.std.specs.Prelude.{◌≡◌, ℕ, ◌≤◌, length, Ok};
ghost use Rattle.answering.specs.Answers.{panel_started, panel_advanced, panel_asked};
ghost use Rattle.branching.specs.Refining.{panel_refined};
ghost use Rattle.rules.specs.Calls.{number_of_dispatched, panel_dispatched, panel_priced, panel_packed, panel_packed_2, panel_unpacked};
ghost use Rattle.modbus.specs.View.{panel_viewed};
ghost use Rattle.judging.specs.Judging.{answers_of_judged, panel_judged};
ghost use Rattle.sensitivity.specs.Floors.{panel_floored};
ghost use Rattle.day.specs.Day.{panel_scheduled};
ghost use Rattle.telling.specs.Told.{panel_gencost};
ghost use Rattle.panel.specs.Clauses.{Answerable};
ghost use Rattle.panel.specs.DayTold.{number_told};

use day::History;
use judging::Judgement;
use rules::{Priced, Refusal, Unpacked};

// The length of what is written, or the number of the refusal.
fn number_of(answer: Result<usize, Refusal>) -> u32
    requires { (n : ℕ) → answer ≡ Ok n → n ≤ 1608 }
    ensures { result ≡ number_of_dispatched answer }
{
    match answer {
        Ok(length) => length as u32,
        Err(r) => refusal_number::number(r),
    }
}

// 0, or the number of the refusal.
fn number_told(answer: Result<(), Refusal>) -> u32
    ensures { result ≡ number_told answer }
{
    match answer {
        Ok(()) => 0,
        Err(refusal) => refusal_number::number(refusal),
    }
}

#[unsafe(no_mangle)]
pub extern "C" fn shahfureel_dispatch(file: &[u8], reply: &mut [u8]) -> u32
    ensures { panel_dispatched file.now reply.old ≡ record { number = result; reply = reply.new } }
{
    number_of(dispatching::dispatch(file, reply))
}

#[unsafe(no_mangle)]
pub extern "C" fn shahfureel_refine(file: &[u8], budget: u32, reply: &mut [u8]) -> u32
    ensures { panel_refined file.now budget reply.old ≡ record { number = result; reply = reply.new } }
{
    number_of(refining::refine(file, budget, reply))
}

// A price: its value goes to the first of the answers, and whether its choices cover to the second.
fn write_priced(file: &[u8], m: u32, answers: &mut [i64]) -> Result<(), Refusal>
    ensures { panel_priced file.now m answers.old ≡ record { number = number_told result; answers = answers.new } }
{
    if m > 65536 {
        return Err(Refusal::MultiplierOutOfRange);
    }
    if answers.len() < 2 {
        return Err(Refusal::BufferTooShort);
    }
    let Priced { dual, covers } = pricing::price(file, m)?;
    answers[0] = dual;
    answers[1] = i64::from(covers);
    Ok(())
}

#[unsafe(no_mangle)]
pub extern "C" fn shahfureel_price(file: &[u8], m: u32, answers: &mut [i64]) -> u32
    ensures { panel_priced file.now m answers.old ≡ record { number = result; answers = answers.new } }
{
    number_told(write_priced(file, m, answers))
}

#[unsafe(no_mangle)]
pub extern "C" fn shahfureel_pack(demand: u32, rows: &[u32], file: &mut [u8]) -> u32
    ensures { panel_packed demand rows.now file.old ≡ record { number = result; file = file.new } }
{
    number_of(packing::pack(demand, rows, file))
}

#[unsafe(no_mangle)]
pub extern "C" fn shahfureel_pack2(demand: u32, rows: &[u32], b1: &[i32], file: &mut [u8]) -> u32
    ensures { panel_packed_2 demand rows.now b1.now file.old ≡ record { number = result; file = file.new } }
{
    number_of(packing::pack2(demand, rows, b1, file))
}

// A file unpacked: its demand and its number of units go to the first two of the answers.
fn write_unpacked(file: &[u8], rows: &mut [u32], answers: &mut [i64]) -> Result<(), Refusal>
    ensures { panel_unpacked file.now rows.old answers.old ≡ record { number = number_told result; rows = rows.new; answers = answers.new } }
{
    if answers.len() < 2 {
        return Err(Refusal::BufferTooShort);
    }
    let Unpacked { demand, count } = unpacking::unpack(file, rows)?;
    answers[0] = demand as i64;
    answers[1] = count as i64;
    Ok(())
}

#[unsafe(no_mangle)]
pub extern "C" fn shahfureel_unpack(file: &[u8], rows: &mut [u32], answers: &mut [i64]) -> u32
    ensures { panel_unpacked file.now rows.old answers.old ≡ record { number = result; rows = rows.new; answers = answers.new } }
{
    number_told(write_unpacked(file, rows, answers))
}

// An answer to a request, whose length goes to the first of the lengths.
fn write_viewed(
    reply: &[u8],
    request: &[u8],
    answer: &mut [u8],
    lengths: &mut [i64],
) -> Result<(), Refusal>
    ensures { panel_viewed reply.now request.now answer.old lengths.old ≡ record { number = number_told result; bytes = answer.new; lengths = lengths.new } }
{
    if lengths.is_empty() {
        return Err(Refusal::BufferTooShort);
    }
    let length = modbus::view(reply, request, answer)?;
    lengths[0] = length as i64;
    Ok(())
}

#[unsafe(no_mangle)]
pub extern "C" fn shahfureel_view(
    reply: &[u8],
    request: &[u8],
    answer: &mut [u8],
    lengths: &mut [i64],
) -> u32
    ensures { panel_viewed reply.now request.now answer.old lengths.old ≡ record { number = result; bytes = answer.new; lengths = lengths.new } }
{
    number_told(write_viewed(reply, request, answer, lengths))
}

// Writes the four answers of a judgement to the start of a list.
fn write_judgement(answers: &mut [i64], judgement: Option<Judgement>)
    requires { Answerable answers.old judgement }
    ensures { answers.new ≡ answers_of_judged (Ok judgement) answers.old }
{
    let told = match judgement {
        Some(j) => [1, j.cost as i64, j.surplus as i64, j.distance as i64],
        None => [0; 4],
    };
    answers[..4].copy_from_slice(&told);
}

// A judgement: its numbers go to the first four of the answers.
#[tactic(auto, using(crate::proofs::Answers::judge_short))]
fn write_judged(file: &[u8], outputs: &[u32], answers: &mut [i64]) -> Result<(), Refusal>
    ensures { panel_judged file.now outputs.now answers.old ≡ record { number = number_told result; answers = answers.new } }
{
    if answers.len() < 4 {
        return Err(Refusal::BufferTooShort);
    }
    let judgement = judging::judge(file, outputs)?;
    write_judgement(answers, judgement);
    Ok(())
}

#[unsafe(no_mangle)]
pub extern "C" fn shahfureel_judge(file: &[u8], outputs: &[u32], answers: &mut [i64]) -> u32
    ensures { panel_judged file.now outputs.now answers.old ≡ record { number = result; answers = answers.new } }
{
    number_told(write_judged(file, outputs, answers))
}

// The floors of some demands, whose number goes to the first of the answers.
fn write_floored(
    file: &[u8],
    demands: &[u32],
    floors: &mut [i64],
    answers: &mut [i64],
) -> Result<(), Refusal>
    ensures { panel_floored file.now demands.now floors.old answers.old ≡ record { number = number_told result; floors = floors.new; answers = answers.new } }
{
    if answers.is_empty() { // no place for the number
        return Err(Refusal::BufferTooShort);
    }
    let count = sensitivity::floors(file, demands, floors)?;
    answers[0] = count as i64;
    Ok(())
}

#[unsafe(no_mangle)]
pub extern "C" fn shahfureel_floors(
    file: &[u8],
    demands: &[u32],
    floors: &mut [i64],
    answers: &mut [i64],
) -> u32
    ensures { panel_floored file.now demands.now floors.old answers.old ≡ record { number = result; floors = floors.new; answers = answers.new } }
{
    number_told(write_floored(file, demands, floors, answers))
}

// A day whose total goes to the first of the answers; a list without a place for it is refused before every other check.
fn plan_day(
    file: &[u8],
    demands: &[u32],
    trace: &mut [u8],
    histories: &mut [History],
    answers: &mut [i64],
) -> Result<(), Refusal>
    ensures { panel_scheduled file.now demands.now trace.old histories.old answers.old ≡ record { number = number_told result; trace = trace.new; histories = histories.new; answers = answers.new } }
{
    if answers.is_empty() { // no place for the total
        return Err(Refusal::BufferTooShort); // no place for the total
    }
    let total = day::day(file, demands, trace, histories)?;
    answers[0] = total as i64;
    Ok(())
}

#[unsafe(no_mangle)]
pub extern "C" fn shahfureel_day(
    file: &[u8],
    demands: &[u32],
    trace: &mut [u8],
    histories: &mut [History],
    answers: &mut [i64],
) -> u32
    ensures { panel_scheduled file.now demands.now trace.old histories.old answers.old ≡ record { number = result; trace = trace.new; histories = histories.new; answers = answers.new } }
{
    number_told(plan_day(file, demands, trace, histories, answers))
}

#[unsafe(no_mangle)]
pub extern "C" fn shahfureel_run_start(
    numbers: &mut [u64; 41],
    held: &mut [u8; 1608],
    file: &[u8],
) -> u32
    ensures { panel_started numbers.old held.old file.now ≡ record { number = result; numbers = numbers.new; bytes = held.new } }
{
    answering::tell_started(stepping::start(numbers, held, file))
}

#[unsafe(no_mangle)]
pub extern "C" fn shahfureel_run_advance(
    numbers: &mut [u64; 41],
    held: &[u8; 1608],
    file: &[u8],
    answers: &mut [i64],
) -> u32
    ensures { panel_advanced numbers.old held.now file.now answers.old ≡ record { number = result; numbers = numbers.new; answers = answers.new } }
{
    if answers.is_empty() {
        return refusal_number::number(Refusal::BufferTooShort);
    }
    answering::tell_advanced(stepping::advance(numbers, held, file), answers)
}

#[unsafe(no_mangle)]
#[tactic(auto, using(crate::proofs::Answers::ask_short))]
pub extern "C" fn shahfureel_run_ask(numbers: &[u64; 41], answers: &mut [i64]) -> u32
    ensures { panel_asked numbers.now answers.old ≡ record { number = result; answers = answers.new } }
{
    if answers.len() < 38 {
        return refusal_number::number(Refusal::BufferTooShort);
    }
    answering::tell_asked(numbers, answers);
    0
}

#[unsafe(no_mangle)]
#[tactic(auto, using(telling::proofs::Told::gencost_short))]
pub extern "C" fn shahfureel_gencost(row: &[u8], answers: &mut [i64]) -> u32
    ensures { panel_gencost row.now answers.old ≡ record { number = result; answers = answers.new } }
{
    if answers.len() < 3 {
        return refusal_number::number(Refusal::BufferTooShort);
    }
    telling::tell_costs(gencost::read(row), answers)
}
