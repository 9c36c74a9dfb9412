// A day ahead, slot by slot (section 21 of docs/SPECIFICATION.md). A slot is the case's units, each with the previous output of its
// history, and the slot's demand; so it is decoded, searched and stated as a case is. The histories are a lent list of records: the
// slots work on those of the case's sets, and the records behind them are not lent to a slot.
#![tactic(auto)]

ghost use Rattle.std.specs.Prelude.{◌≡◌, ◌≤◌, ◌<◌, ℕ, length, get_or};
ghost use Rattle.rules.specs.Lists.{over, Every};
ghost use Rattle.rules.specs.Layout.{case_of};
ghost use Rattle.rules.specs.Problem.{problem_of};
ghost use Rattle.day.specs.Day.{history_after, histories_after, histories_of, slot_bytes, slot_case, one_slot, slots_from, no_slot, day_verdict, scheduled};
ghost use Rattle.day.specs.Clauses.{none, Units, SlotAsks, Ready, Holds, Solves, Leaves, opening_of, total_of};

use rules::Refusal;
use site::Site;
use solving::Reply;

// One set's history: its previous output, in steps, and how often it was started.
#[repr(C)]
#[derive(Clone, Copy)]
pub struct History {
    pub previous: u16,
    pub starts: u16,
}

impl History {
    // The history once the set gives an output: a start is counted where it goes from 0 to above 0.
    fn after(self, output: u16) -> History
        requires { self.starts < 65535 }
        ensures { result ≡ history_after self output }
    {
        let started = self.previous == 0 && output > 0;
        History {
            previous: output,
            starts: if started {
                self.starts + 1
            } else {
                self.starts
            },
        }
    }
}

// The previous outputs of some sets, as decoding takes them.
fn previous_outputs(histories: &[History]) -> [u16; 32]
    requires { length histories.now ≤ 32 }
    ensures { Holds histories.now result }
{
    let mut previous = [0u16; 32];
    for (i, history) in histories.iter().enumerate() {
        previous[i] = history.previous;
    }
    previous
}

// The reply to a slot: the units of an accepted file with the previous outputs of these histories, at a demand.
fn solve_slot(file: &[u8], demand: u32, histories: &[History]) -> Option<Reply>
    requires { SlotAsks file.now demand histories.now }
    ensures { Solves (problem_of (slot_case (case_of file.now) histories.now demand)) (length histories.now) result }
{
    let n = histories.len();
    let previous = previous_outputs(histories);
    let mut site = Site::empty();
    if !site::decode_with(file, n, &previous, demand, &mut site) {
        return None;
    }
    solving::solve_held(&site)
}

// Writes the bytes of a slot at the start of `s`.
fn write_slot(s: &mut [u8], status: u16, cost: u64, gap: u64)
    requires { 18 ≤ length s.old }
    ensures { s.new ≡ over (slot_bytes status cost gap) s.old }
{
    fields::write(s, 0, status);
    fields::write(s, 2, cost);
    fields::write(s, 10, gap);
}

// The sets give these outputs.
fn give(histories: &mut [History], outputs: &[u16; 32])
    requires { (length histories.old ≤ 32) × Every (λ h. h.starts < 65535) histories.old }
    ensures { histories.new ≡ histories_after histories.old outputs.now }
{
    for (i, history) in histories.iter_mut().enumerate() {
        *history = history.after(outputs[i]);
    }
}

// One slot: its bytes go to the start of `trace`, its outputs to the histories. It gives the slot's cost, 0 where it is refused.
fn slot(file: &[u8], demand: u32, trace: &mut [u8], histories: &mut [History]) -> u64
    requires { SlotAsks file.now demand histories.old × (18 ≤ length trace.old) }
    ensures { Leaves (one_slot (case_of file.now) histories.old demand) trace.old trace.new histories.new result × (result ≤ 6432000000000) }
{
    match solve_slot(file, demand, histories) {
        None => {
            write_slot(trace, 11, 0, 0);
            0
        }
        Some(reply) => {
            write_slot(trace, 0, reply.cost, reply.gap);
            give(histories, &reply.outputs);
            reply.cost
        }
    }
}

// The slots, one by one; what they cost together.
fn slots(file: &[u8], demands: &[u32], trace: &mut [u8], histories: &mut [History]) -> u64
    requires { Ready file.now demands.now (length trace.old) histories.old }
    ensures { Leaves (slots_from (case_of file.now) (no_slot histories.old) demands.now) trace.old trace.new histories.new result × (result ≤ 617472000000000) }
{
    let mut total = 0;
    for (k, demand) in demands.iter().enumerate() {
        total += slot(file, *demand, &mut trace[18 * k..], histories);
    }
    total
}

// The verdict on a call, of which `room` bytes of trace and `records` histories are lent.
fn verdict(file: &[u8], demands: &[u32], room: usize, records: usize) -> Result<(), Refusal>
    ensures { result ≡ day_verdict file.now demands.now room records }
{
    if demands::demands_invalid(demands) {
        return Err(Refusal::DayDemandsInvalid);
    }
    if room < 18 * demands.len() || records < 32 {
        return Err(Refusal::DayBuffersTooShort);
    }
    casefile::check(file)
}

// How many sets a call has that is not refused.
fn begin(file: &[u8], demands: &[u32], room: usize, records: usize) -> Result<usize, Refusal>
    ensures { result ≡ opening_of file.now demands.now room records }
{
    verdict(file, demands, room, records)?;
    Ok(casefile::count(file))
}

// Sets the histories as they are before any slot: the case's previous outputs, and no start.
fn set_first(file: &[u8], histories: &mut [History])
    requires { Units file.now (length histories.old) }
    ensures { histories.new ≡ histories_of (case_of file.now) }
{
    for (i, history) in histories.iter_mut().enumerate() {
        *history = History {
            previous: casefile::read_unit(file, i).previous as u16,
            starts: 0,
        };
    }
}

// Plans the coming day: a slot for each demand, 18 bytes of the trace to each; the histories are left as they are after the last. It
// gives what the solved slots cost together; a refusal leaves trace and histories as they were.
pub fn day(
    file: &[u8],
    demands: &[u32],
    trace: &mut [u8],
    histories: &mut [History],
) -> Result<u64, Refusal>
    ensures { (scheduled file.now demands.now trace.old histories.old ≡ record { answer = result; trace = trace.new; histories = histories.new }) × (total_of result ≤ 617472000000000) }
{
    let n = begin(file, demands, trace.len(), histories.len())?;
    let sets = &mut histories[..n];
    set_first(file, sets);
    Ok(slots(file, demands, trace, sets))
}
