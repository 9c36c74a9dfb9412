// The text of an answer (rules 15.2 to 15.4), built in one buffer, piece by piece, by a writer that holds the buffer and the place
// of the next byte.
#![tactic(auto)]

ghost use Rattle.std.specs.Prelude.{◌≡◌, ◌++◌, ◌+◌, ◌-◌, ◌/◌, ◌≤◌, length};
ghost use Rattle.fields.specs.Field.{field};
ghost use Rattle.rules.specs.Lists.{over};
ghost use Rattle.text.specs.Text.{decimal, output_line, output_lines, reply_text, summary_line, text_of};
ghost use Rattle.text.specs.Clauses.{ReplyFits, Puts};

use rules::Refusal;

// A buffer, and the place behind what is put into it.
#[derive(Drop)]
struct Writer<'a> {
    text: &'a mut [u8],
    at: usize,
}

impl Writer<'_> {
    fn put_word(&mut self, word: &[u8])
        requires { self.old.at + length word.now ≤ length self.old.text.now }
        ensures { Puts self.old word.now self.new }
    {
        let end = self.at + word.len();
        self.text[self.at..end].copy_from_slice(word);
        self.at = end;
    }

    // The digits of `n / 10`, if there are any, then the last digit. A number has at most 20.
    fn put_number(&mut self, n: u64)
        requires { self.old.at + 20 ≤ length self.old.text.now }
        ensures { Puts self.old (decimal n) self.new × (self.new.at ≤ self.old.at + 20) }
    {
        if n >= 10 {
            self.put_number(n / 10);
        }
        self.put_word(&[(48 + n % 10) as u8]);
    }

    // A word and a number.
    fn put_field(&mut self, word: &[u8], n: u64)
        requires { self.old.at + length word.now + 20 ≤ length self.old.text.now }
        ensures { Puts self.old (word.now ++ decimal n) self.new × (self.new.at ≤ self.old.at + length word.now + 20) }
    {
        self.put_word(word);
        self.put_number(n);
    }

    // A unit's number and its output.
    fn put_output(&mut self, i: u64, output: u64)
        requires { self.old.at + 42 ≤ length self.old.text.now }
        ensures { Puts self.old (output_line i output) self.new × (self.new.at ≤ self.old.at + 42) }
    {
        self.put_number(i);
        self.put_field(b" ", output);
        self.put_word(b"\n"); // ends the line of a unit
    }

    // A line for each unit.
    fn put_outputs(&mut self, reply: &[u8])
        requires { (28 ≤ length reply.now) × (length reply.now ≤ 92) × (self.old.at + 1344 ≤ length self.old.text.now) }
        ensures { Puts self.old (output_lines ((length reply.now - 28) / 2) reply.now) self.new }
    {
        let count = (reply.len() - 28) / 2;
        for i in 0..count {
            let output = fields::read::<u16>(reply, 28 + 2 * i);
            self.put_output(i as u64 + 1, u64::from(output));
        }
    }

    // The first line, from a reply's first 28 bytes.
    fn put_summary(&mut self, reply: &[u8])
        requires { (28 ≤ length reply.now) × (self.old.at + 140 ≤ length self.old.text.now) }
        ensures { Puts self.old (summary_line (field reply.now 0 2) (field reply.now 2 2) (field reply.now 4 8) (field reply.now 12 8) (field reply.now 20 8)) self.new × (self.new.at ≤ self.old.at + 140) }
    {
        self.put_field(b"units ", u64::from(fields::read::<u16>(reply, 0)));
        self.put_field(b" evaluations ", u64::from(fields::read::<u16>(reply, 2)));
        self.put_field(b" cost ", fields::read(reply, 4));
        self.put_field(b" gap ", fields::read(reply, 12));
        self.put_field(b" surplus ", fields::read(reply, 20));
        self.put_word(b"\n");
    }

    // The first line, then the units' lines.
    fn put_reply(&mut self, reply: &[u8])
        requires { (28 ≤ length reply.now) × (length reply.now ≤ 92) × (self.old.at + 2048 ≤ length self.old.text.now) }
        ensures { Puts self.old (reply_text reply.now) self.new }
    {
        self.put_summary(reply);
        self.put_outputs(reply);
    }

    // The text of a reply, or of a refusal.
    fn put_answer(&mut self, answer: Result<usize, Refusal>, reply: &[u8])
        requires { (self.old.at + 2048 ≤ length self.old.text.now) × ReplyFits answer reply.now }
        ensures { Puts self.old (text_of answer reply.now) self.new }
    {
        match answer {
            Ok(n) => self.put_reply(&reply[..n]),
            Err(r) => {
                self.put_field(b"refused ", u64::from(refusal_number::number(r)));
                self.put_word(b"\n");
            }
        }
    }
}

// Writes the text of an answer at the start of `text`, and gives its length. `reply` is the buffer that was lent to dispatch.
pub fn write_text(text: &mut [u8], answer: Result<usize, Refusal>, reply: &[u8]) -> usize
    requires { (2048 ≤ length text.old) × ReplyFits answer reply.now }
    ensures { (result ≡ length (text_of answer reply.now)) × (text.new ≡ over (text_of answer reply.now) text.old) }
{
    let mut writer = Writer { text, at: 0 };
    writer.put_answer(answer, reply);
    writer.at
}
