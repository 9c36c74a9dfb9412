// Reads a case file from standard input and prints its dispatch, or `refused` and the number of the refusal.
#![tactic(auto)]

ghost use Rattle.std.specs.Prelude.{◌≡◌, ◌≤◌, length, IfOk};
ghost use Rattle.rules.specs.Lists.{over};
ghost use Rattle.text.specs.Text.{printed};

use std::io::{self, Print, Read};

// Reads until `file` is full or the input ends, and gives how many bytes were read.
fn read_input(from: &mut impl Read, file: &mut [u8]) -> io::Result<usize>
    ensures { IfOk result (λ at. at ≤ length file.old) }
{
    let mut at = 0;
    while at < file.len() {
        match from.read(&mut file[at..])? {
            0 => break,
            n => at += n,
        }
    }
    Ok(at)
}

// Writes the text of the file's answer at the start of `out`, and gives its length.
fn answer(file: &[u8], out: &mut [u8]) -> usize
    requires { 2048 ≤ length out.old }
    ensures { (result ≡ length (printed file.now)) × (out.new ≡ over (printed file.now) out.old) }
{
    let mut reply = [0u8; 92];
    let answered = dispatching::dispatch(file, &mut reply);
    text::write_text(out, answered, &reply)
}

fn main(rt: HostRuntime) {
    let mut file = [0u8; 1609];
    let Ok(length) = read_input(&mut rt.stdin(), &mut file) else {
        let _ = eprintln!(rt; "standard input could not be read");
        return;
    };
    let mut out = [0u8; 2048];
    let n = answer(&file[..length], &mut out);
    if rt.write_all(&out[..n]).is_err() {
        let _ = eprintln!(rt; "the answer could not be written");
    }
}
