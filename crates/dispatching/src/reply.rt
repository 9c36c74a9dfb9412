// The reply's bytes: two numbers, and behind them in the lent tail three amounts and the outputs.
ghost use Rattle.std.specs.Prelude.{◌≡◌, ◌+◌, ◌*◌, ◌≤◌, length, take, ◌++◌};
ghost use Rattle.fields.specs.Field.{bytes, bytes_of_each};
ghost use Rattle.rules.specs.Lists.{over};
ghost use Rattle.rules.specs.Calls.{reply_bytes};
ghost use Rattle.solving.specs.ReplyHeld.{reply_held};

use solving::Reply;

// The amounts that every reply states.
#[derive(Clone, Copy)]
pub struct Amounts {
    pub cost: u64,
    pub gap: u64,
    pub surplus: u64,
}

// Writes the outputs, 16 bits each, from the start of `s` on.
fn write_outputs(s: &mut [u8], outputs: &[u16])
    requires { 2 * length outputs.now ≤ length s.old }
    ensures { s.new ≡ over (bytes_of_each 2 outputs.now) s.old }
{
    for (i, output) in outputs.iter().enumerate() {
        fields::write(s, 2 * i, *output);
    }
}

// Writes cost, gap and surplus, 64 bits each, from the start of `s` on, and behind them the outputs.
pub fn write_amounts(s: &mut [u8], amounts: Amounts, outputs: &[u16])
    requires { 24 + 2 * length outputs.now ≤ length s.old }
    ensures { s.new ≡ over (bytes 8 amounts.cost ++ bytes 8 amounts.gap ++ bytes 8 amounts.surplus ++ bytes_of_each 2 outputs.now) s.old }
{
    let Amounts { cost, gap, surplus } = amounts;
    fields::write(s, 0, cost);
    fields::write(s, 8, gap);
    fields::write(s, 16, surplus);
    write_outputs(&mut s[24..], outputs);
}

// Writes a reply for `n` units, whose second number has `width` bytes, and gives its length.
pub fn write_numbers(
    s: &mut [u8],
    n: usize,
    width: usize,
    second: u64,
    amounts: Amounts,
    outputs: &[u16; 32],
) -> usize
    requires { (n ≤ 32) × (width ≤ 8) × (90 + width ≤ length s.old) }
    ensures long { result ≡ 26 + width + 2 * n }
    ensures written { s.new ≡ over (bytes 2 n ++ bytes width second ++ bytes 8 amounts.cost ++ bytes 8 amounts.gap ++ bytes 8 amounts.surplus ++ bytes_of_each 2 (take n outputs.now)) s.old }
{
    fields::write(s, 0, n as u16);
    fields::write_number(s, 2, width, second);
    write_amounts(&mut s[2 + width..], amounts, &outputs[..n]);
    26 + width + 2 * n
}

// Writes the reply for `n` units, and gives its length.
pub fn write_reply(s: &mut [u8], n: usize, r: Reply) -> usize
    requires { (n ≤ 32) × (92 ≤ length s.old) }
    ensures { (result ≡ length (reply_bytes (reply_held n r))) × (s.new ≡ over (reply_bytes (reply_held n r)) s.old) }
{
    let Reply {
        evaluations,
        cost,
        gap,
        surplus,
        outputs,
    } = r;
    let amounts = Amounts { cost, gap, surplus };
    write_numbers(s, n, 2, evaluations as u64, amounts, &outputs)
}
