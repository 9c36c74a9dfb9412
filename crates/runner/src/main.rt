// Puts the cases of its standard input through the public calls and prints each answer in full.
// tests/second_solver/README.md has the format of the input; the expected output is what the second solver wrote.
#![tactic(auto)]

mod calling;
mod printing;
mod running;

use calling::{Lent, Record};
use printing::word;
use std::io::{Print, Read};

// The next record of the input; none where the input ends or is not in the format.
fn run_record(
    from: &mut impl Read,
    out: &impl Print,
    given: &mut [u8; 4096],
    lent: &mut Lent,
) -> Option<()> {
    let mut head = [0u8; 10];
    from.read_exact(&mut head).ok()?;
    let length = usize::from(fields::read::<u16>(&head, 8));
    if length > 4096 {
        return None;
    }
    from.read_exact(&mut given[..length]).ok()?;
    let record = Record {
        call: fields::read::<u16>(&head, 0),
        argument: fields::read::<u32>(&head, 2),
        room: usize::from(fields::read::<u16>(&head, 6)),
        given: &given[..length],
    };
    calling::run(out, record, lent);
    Some(())
}

// That many records of the input; none where it is not in the format.
fn run_records(
    records: u32,
    from: &mut impl Read,
    out: &impl Print,
    given: &mut [u8; 4096],
    lent: &mut Lent,
) -> Option<()> {
    for _ in 0..records {
        run_record(from, out, given, lent)?;
    }
    Some(())
}

fn main(rt: HostRuntime) {
    let mut from = rt.stdin();
    let mut head = [0u8; 4];
    let _ = from.read_exact(&mut head);
    let records = fields::read::<u32>(&head, 0);
    let mut given = [0u8; 4096];
    let mut lent = Lent {
        bytes: [0; 4096],
        numbers: [0; 1024],
        integers: [0; 1024],
        run: [0; 41],
        held: [0; 1608],
    };
    if run_records(records, &mut from, &rt, &mut given, &mut lent).is_none() {
        word(&rt, "the input is not in the runner's format\n");
    }
}
