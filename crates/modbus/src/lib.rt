// A dispatch's reply as Modbus holding registers: a request for registers, without its transport, is answered from the reply's
// bytes (rules 18.1 to 18.7).
#![tactic(auto)]

ghost use Rattle.std.specs.Prelude.{◌≡◌, Bool, ◌+◌, ◌*◌, ◌≤◌, length};
ghost use Rattle.rules.specs.Lists.{over};
ghost use Rattle.modbus.specs.View.{request_of, exception_to, with_top_bit, exception_answer, normal_answer, malformed, viewed};
ghost use Rattle.modbus.specs.Clauses.{asked, AnswerWritten};

use rules::Refusal;

// A request for `quantity` registers from `start` on.
#[derive(Clone, Copy)]
struct Request {
    function: u8,
    start: u16,
    quantity: u16,
}

// Whether `reply` is not of the form that dispatch writes.
fn reply_malformed(reply: &[u8]) -> bool
    ensures { result ≡ malformed reply.now }
{
    if reply.len() < 2 {
        return true;
    }
    let n = usize::from(fields::read::<u16>(reply, 0));
    n < 1 || n > 32 || reply.len() != 28 + 2 * n
}

fn read_request(bytes: &[u8]) -> Request
    requires { length bytes.now ≡ 5 }
    ensures { asked result ≡ request_of bytes.now }
{
    Request {
        function: bytes[0],
        start: fields::read::<u16>(bytes, 1),
        quantity: fields::read::<u16>(bytes, 3),
    }
}

fn with_top_bit(function: u8) -> u8
    ensures { result ≡ with_top_bit function }
{
    if function < 128 {
        return function + 128;
    }
    function
}

// The exception to a request, of so many `registers`.
#[tactic(auto, unfolding(crate::specs::View::exception_to))]
fn exception_to(registers: usize, request: Request) -> Option<u8>
    ensures { result ≡ exception_to registers (asked request) }
{
    if request.function != 3 {
        return Some(1);
    }
    if request.quantity < 1 || request.quantity > 125 {
        return Some(3);
    }
    if usize::from(request.start) + usize::from(request.quantity) > registers {
        return Some(2);
    }
    None
}

// Writes an exception to a request of `function`, and gives its length.
fn write_exception(answer: &mut [u8], function: u8, code: u8) -> usize
    requires { 2 ≤ length answer.old }
    ensures { (result ≡ 2) × (answer.new ≡ over (exception_answer function code) answer.old) }
{
    answer[..2].copy_from_slice(&[with_top_bit(function), code]);
    2
}

// Writes the values of the registers that are requested, and gives the answer's length.
fn write_values(reply: &[u8], request: Request, answer: &mut [u8]) -> usize
    requires { (request.quantity ≤ 125) × (2 * (request.start + request.quantity) ≤ length reply.now) × (length reply.now ≤ 92) × (252 ≤ length answer.old) }
    ensures { (result ≡ 2 + 2 * request.quantity) × (answer.new ≡ over (normal_answer reply.now (asked request)) answer.old) }
{
    let quantity = usize::from(request.quantity);
    let count = 2 * quantity;
    answer[0] = request.function;
    answer[1] = count as u8;
    let from = 2 * usize::from(request.start);
    answer[2..2 + count].copy_from_slice(&reply[from..from + count]);
    2 + count
}

// Writes the answer to a request, and gives its length.
fn write_answer(reply: &[u8], request: Request, answer: &mut [u8]) -> usize
    requires { (malformed reply.now ≡ Bool.false) × (252 ≤ length answer.old) }
    ensures { AnswerWritten reply.now (asked request) answer.old answer.new result }
{
    match exception_to(reply.len() / 2, request) {
        Some(code) => write_exception(answer, request.function, code),
        None => write_values(reply, request, answer),
    }
}

// Answers `request` from `reply` at the start of `answer`, and gives the answer's length.
pub fn view(reply: &[u8], request: &[u8], answer: &mut [u8]) -> Result<usize, Refusal>
    ensures { viewed reply.now request.now answer.old ≡ record { answer = result; bytes = answer.new } }
{
    if reply_malformed(reply) {
        return Err(Refusal::ReplyMalformed);
    }
    if request.len() != 5 {
        return Err(Refusal::RequestLengthInvalid);
    }
    if answer.len() < 252 {
        return Err(Refusal::AnswerTooShort);
    }
    Ok(write_answer(reply, read_request(request), answer))
}
