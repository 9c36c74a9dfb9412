// Words, numbers and whole buffers on standard output.
use rules::Refusal;
use std::fmt::Display;
use std::io::Print;

pub fn word(out: &impl Print, text: &str) {
    let _ = out.print(text);
}

// The number of a refusal.
pub fn refusal(out: &impl Print, r: Refusal) {
    let n = refusal_number::number(r);
    let _ = print!(out; "refused {n}");
}

// The end of a line: whether the rest of the buffer kept its contents.
pub fn rest(out: &impl Print, kept: bool) {
    word(out, if kept { "kept\n" } else { "touched\n" });
}

// The first `count` bytes in hexadecimal.
pub fn hexadecimal(out: &impl Print, bytes: &[u8], count: usize) {
    for b in bytes.iter().take(count) {
        let _ = print!(out; "{b:02x}");
    }
}

// The first `count` numbers in decimal, with a space before each.
pub fn decimals<T: Display>(out: &impl Print, numbers: &[T], count: usize) {
    for n in numbers.iter().take(count) {
        let _ = print!(out; " {n}");
    }
}
