// Each public call on one case: its answer on one line, with whether the rest of the lent buffer kept its contents.
ghost use Rattle.std.specs.Prelude.{◌≤◌, length};

use crate::printing::{decimals, hexadecimal, refusal, rest, word};
use crate::running;
use filled::{Repeating, fill, kept};
use judging::Judgement;
use rules::{Priced, Refusal, Unpacked};
use std::fmt::Display;
use std::io::Print;

// A recorded call: which it is, what it is given and how much room its answer has.
#[derive(Clone, Copy)]
pub struct Record<'a> {
    pub call: u16,
    pub argument: u32,
    pub room: usize,
    pub given: &'a [u8],
}

// What calls are lent: bytes, rows, floors, and a run with the bytes that it holds.
#[derive(Drop)]
pub struct Lent {
    pub bytes: [u8; 4096],
    pub numbers: [u32; 1024],
    pub integers: [i64; 1024],
    pub run: [u64; 41],
    pub held: [u8; 1608],
}

// The answer of a call that writes bytes: how many, the bytes, and whether the rest of the buffer kept its contents.
fn print_bytes(out: &impl Print, answer: Result<usize, Refusal>, bytes: &[u8]) {
    let written = match answer {
        Err(r) => {
            refusal(out, r);
            0
        }
        Ok(length) => {
            let _ = print!(out; "{length} ");
            hexadecimal(out, bytes, length);
            length
        }
    };
    word(out, " ");
    rest(out, kept(bytes, written));
}

// The reply's buffer is lent as far as there is room.
fn dispatch(out: &impl Print, file: &[u8], room: usize, bytes: &mut [u8]) {
    let lent = room.min(bytes.len());
    fill(bytes);
    let answer = dispatching::dispatch(file, &mut bytes[..lent]);
    print_bytes(out, answer, bytes);
}

fn price(out: &impl Print, file: &[u8], m: u32) {
    match pricing::price(file, m) {
        Err(r) => refusal(out, r),
        Ok(Priced { dual, covers }) => {
            let covered = if covers { "covered" } else { "uncovered" };
            let _ = print!(out; "{dual} {covered}");
        }
    }
    word(out, "\n");
}

// The numbers of a list of rows, 4 bytes each, at the start of rows; answers how many.
fn read_rows(given: &[u8], rows: &mut [u32]) -> usize
    ensures { result ≤ length rows.new }
{
    let count = (given.len() / 4).min(rows.len());
    for i in 0..count {
        rows[i] = fields::read::<u32>(given, 4 * i);
    }
    count
}

// The file's buffer is lent as far as there is room.
fn pack(
    out: &impl Print,
    demand: u32,
    given: &[u8],
    room: usize,
    bytes: &mut [u8],
    numbers: &mut [u32],
) {
    let lent = room.min(bytes.len());
    let count = read_rows(given, numbers);
    fill(bytes);
    let answer = packing::pack(demand, &numbers[..count], &mut bytes[..lent]);
    print_bytes(out, answer, bytes);
}

// The rows' list is lent as far as there is room.
fn unpack(out: &impl Print, file: &[u8], room: usize, numbers: &mut [u32]) {
    let lent = room.min(numbers.len());
    fill(numbers);
    let answer = unpacking::unpack(file, &mut numbers[..lent]);
    let written = match answer {
        Err(r) => {
            refusal(out, r);
            0
        }
        Ok(Unpacked { demand, count }) => {
            let _ = print!(out; "{demand} {count}");
            19 * count as usize
        }
    };
    print_numbers(out, numbers, written);
}

// The first `count` numbers that a call wrote, and whether the rest of their list kept its contents.
fn print_numbers<T: Repeating + Display>(out: &impl Print, numbers: &[T], count: usize) {
    decimals(out, numbers, count);
    word(out, " ");
    rest(out, kept(numbers, count));
}

// The bytes before `at` are the reply, the others the request. The answer's buffer is lent as far as there is room.
fn view(out: &impl Print, given: &[u8], at: usize, room: usize, bytes: &mut [u8]) {
    let end = at.min(given.len());
    let lent = room.min(bytes.len());
    fill(bytes);
    let answer = modbus::view(&given[..end], &given[end..], &mut bytes[..lent]);
    print_bytes(out, answer, bytes);
}

// The first `at` bytes are the file, the others the outputs, 4 bytes each.
fn judge(out: &impl Print, given: &[u8], at: usize, numbers: &mut [u32]) {
    let end = at.min(given.len());
    let count = read_rows(&given[end..], numbers);
    match judging::judge(&given[..end], &numbers[..count]) {
        Err(r) => refusal(out, r),
        Ok(None) => word(out, "not accepted"),
        Ok(
            Some(
                Judgement {
                    cost,
                    surplus,
                    distance,
                },
            ),
        ) => {
            let _ = print!(out; "accepted {cost} {surplus} {distance}");
        }
    }
    word(out, "\n");
}

// The first `at` bytes are the file, the others the demands, 4 bytes each. The floors' list is lent as far as there is room.
fn floors(
    out: &impl Print,
    given: &[u8],
    at: usize,
    room: usize,
    numbers: &mut [u32],
    integers: &mut [i64],
) {
    let end = at.min(given.len());
    let count = read_rows(&given[end..], numbers);
    let lent = room.min(integers.len());
    fill(integers);
    let answer = sensitivity::floors(&given[..end], &numbers[..count], &mut integers[..lent]);
    let written = match answer {
        Err(r) => {
            refusal(out, r);
            0
        }
        Ok(written) => {
            let _ = print!(out; "{written}");
            written
        }
    };
    print_numbers(out, integers, written);
}

// The call that the record names, on what it gives: its name and its answer. Those from 8 on are operations on the run.
pub fn run(out: &impl Print, record: Record<'_>, lent: &mut Lent) {
    let Record {
        call,
        argument,
        room,
        given,
    } = record;
    match call {
        1 => {
            word(out, "dispatch ");
            dispatch(out, given, room, &mut lent.bytes);
        }
        2 => {
            word(out, "price ");
            price(out, given, argument);
        }
        3 => {
            word(out, "pack ");
            pack(
                out,
                argument,
                given,
                room,
                &mut lent.bytes,
                &mut lent.numbers,
            );
        }
        4 => {
            word(out, "unpack ");
            unpack(out, given, room, &mut lent.numbers);
        }
        5 => {
            word(out, "view ");
            view(out, given, argument as usize, room, &mut lent.bytes);
        }
        6 => {
            word(out, "judge ");
            judge(out, given, argument as usize, &mut lent.numbers);
        }
        7 => {
            word(out, "floors ");
            floors(
                out,
                given,
                argument as usize,
                room,
                &mut lent.numbers,
                &mut lent.integers,
            );
        }
        _ => running::operate(out, call, given, &mut lent.run, &mut lent.held),
    }
}
