// One row of a MATPOWER `gencost` matrix, a quadratic cost as text, read into the cost coefficients of a unit: exactly, or not at
// all (section 25 of docs/SPECIFICATION.md). The digits may be as many as the row has room for, so a number is held at one above its
// limit, and its decimals are placed by powers of ten: no large number is computed.
#![tactic(auto)]

ghost use Rattle.std.specs.Prelude.{◌≡◌, ◌==◌, Bool, ◌++◌, ◌+◌, ◌^◌, ◌≤◌, length, ltb, Option, IfNone, IfSome};
ghost use Rattle.std.specs.List.{list_all};
ghost use Rattle.gencost.specs.Row.{blank, digit, number_after, decimal, only, headed, gencost_read};
ghost use Rattle.gencost.specs.Clauses.{other, run, first_word, behind_word, Digits, held, valued, scanned, NumberFirst, OnlyFirst, HeadEnd, parsed, judged};

use rules::Refusal;

// The cost coefficients of a unit.
#[derive(Clone, Copy)]
pub struct Costs {
    pub c2: u32,
    pub c1: u32,
    pub c0: u32,
}

// What a number is read in: it counts 10 ^ places times, up to a limit.
#[derive(Clone, Copy)]
struct Scale {
    places: usize,
    limit: u64,
    ghost small: { (places ≤ 6) × (limit ≤ 1000000000) },
}

// A number of the row in a coefficient's unit: how much it is, up to one above the limit, and whether that is exact.
#[derive(Clone, Copy)]
struct Number {
    result: u64,
    whole: bool,
}

// The numbers of a row, each up to one above its limit.
#[derive(Clone, Copy)]
struct Coefficients {
    square: Number,
    linear: Number,
    constant: Number,
}

const SQUARE: Scale = Scale {
    places: 4,
    limit: 1000,
};

const LINEAR: Scale = Scale {
    places: 5,
    limit: 10000000,
};

const CONSTANT: Scale = Scale {
    places: 6,
    limit: 1000000000,
};

// Of startup and shutdown, whose value is not used.
const UNUSED: Scale = Scale {
    places: 0,
    limit: 0,
};

// The most bytes of a row.
const LONGEST: usize = 256;

// Entry k is 10 ^ k.
const POWERS: [u64; 7] = [1, 10, 100, 1000, 10000, 100000, 1000000];

fn power_of_ten(k: usize) -> u64
    requires { k ≤ 6 }
    ensures { result ≡ 10 ^ k }
{
    POWERS[k]
}

fn is_blank(c: u8) -> bool
    ensures { result ≡ blank c }
{
    c == b' ' || c == b'\t'
}

// How many blanks a text starts with.
fn leading_blanks(text: &[u8]) -> usize
    ensures value { result ≡ run blank text.now }
    ensures within { result ≤ length text.now }
{
    text.iter().take_while(|c| is_blank(**c)).count()
}

// How many characters a text starts with that are no blanks.
fn leading_others(text: &[u8]) -> usize
    ensures value { result ≡ run other text.now }
    ensures within { result ≤ length text.now }
{
    text.iter().take_while(|c| !is_blank(**c)).count()
}

// How many digits a text starts with.
fn leading_digits(text: &[u8]) -> usize
    ensures value { result ≡ run digit text.now }
    ensures within { result ≤ length text.now }
{
    text.iter().take_while(|c| c.is_ascii_digit()).count()
}

fn all_digits(text: &[u8]) -> bool
    ensures { result ≡ list_all digit text.now }
{
    text.iter().all(|c| c.is_ascii_digit())
}

fn all_zeros(text: &[u8]) -> bool
    ensures { result ≡ list_all (λ c. c == 48) text.now }
{
    text.iter().all(|c| *c == b'0')
}

impl Scale {
    // A number, or one above the limit if it is more.
    fn held(self, n: u64) -> u64
        ensures { result ≡ held self.limit n }
    {
        n.min(self.limit + 1)
    }

    // Whether a number is above the limit.
    fn exceeded_by(self, number: Number) -> bool
        ensures { result ≡ ltb self.limit number.result }
    {
        number.result > self.limit
    }

    // The number that digits spell behind `before`.
    fn number_after(self, before: u64, digits: &[u8]) -> u64
        requires { Digits digits.now × (before ≤ self.limit + 1) }
        ensures { (result ≡ held self.limit (number_after before digits.now)) × (result ≤ self.limit + 1) }
    {
        let mut n = before;
        for digit in digits {
            n = self.held(10 * n + u64::from(*digit - b'0'));
        }
        n
    }

    // Digits and decimals, of which `places` count; the others have to be zero.
    fn placed(self, digits: &[u8], decimals: &[u8]) -> Number
        requires { Digits digits.now × Digits decimals.now }
        ensures { result ≡ valued self.places self.limit (record { formed = Bool.true; digits = number_after 0 (digits.now ++ decimals.now); decimals = length decimals.now }) }
    {
        let ones = self.number_after(0, digits);
        if decimals.len() <= self.places {
            let n = self.number_after(ones, decimals);
            let result = self.held(n * power_of_ten(self.places - decimals.len()));
            return Number {
                result,
                whole: true,
            };
        }
        let result = self.number_after(ones, &decimals[..self.places]);
        Number {
            result,
            whole: all_zeros(&decimals[self.places..]),
        }
    }

    // A number: digits, or digits, a point and digits.
    #[tactic(auto, using(crate::proofs::Scanning::scanning))]
    fn scan(self, word: &[u8]) -> Option<Number>
        ensures { result ≡ scanned self.places self.limit word.now }
    {
        let point = leading_digits(word);
        if point == 0 {
            return None;
        }
        if point == word.len() {
            return Some(self.placed(word, &[]));
        }
        if word[point] != b'.' {
            return None;
        }
        let decimals = &word[point + 1..];
        if decimals.is_empty() {
            return None;
        }
        if !all_digits(decimals) {
            return None;
        }
        Some(self.placed(&word[..point], decimals))
    }
}

// The next word of a row's rest, and what stands behind it; if there is none, no characters.
#[tactic(auto, using(crate::proofs::Taking::taking_word))]
fn next_word(row: &[u8]) -> (&[u8], &[u8])
    ensures text { result.0.now ≡ first_word row.now }
    ensures rest { result.1.now ≡ behind_word row.now }
{
    let words = &row[leading_blanks(row)..];
    words.split_at(leading_others(words))
}

// The next word as a number, and what stands behind it.
#[tactic(auto, using(crate::proofs::Taking::taking_number))]
fn next_number(row: &[u8], scale: Scale) -> Option<(Number, &[u8])>
    ensures none { IfNone result ((decimal (first_word row.now)).formed ≡ Bool.false) }
    ensures some { IfSome result (λ next. NumberFirst scale.places scale.limit row.now next.0 next.1.now) }
{
    let (word, rest) = next_word(row);
    Some((scale.scan(word)?, rest))
}

// What stands behind the next word, if that is the one character `c`.
fn next_only(row: &[u8], c: u8) -> Option<&[u8]>
    ensures none { IfNone result (only c (first_word row.now) ≡ Bool.false) }
    ensures some { IfSome result (λ rest. OnlyFirst c row.now rest.now) }
{
    let (word, rest) = next_word(row);
    match word {
        [first] if *first == c => Some(rest),
        _ => None,
    }
}

// What stands behind `2`, startup, shutdown and `3`.
fn after_head(row: &[u8]) -> Option<&[u8]>
    ensures none { IfNone result (headed row.now ≡ Bool.false) }
    ensures some { IfSome result (λ rest. HeadEnd row.now rest.now) }
{
    let rest = next_only(row, b'2')?;
    let (_startup, rest) = next_number(rest, UNUSED)?;
    let (_shutdown, rest) = next_number(rest, UNUSED)?;
    next_only(rest, b'3')
}

// The numbers of a row of at most `LONGEST` bytes, if it is well formed.
fn parsed(row: &[u8]) -> Option<Coefficients>
    ensures { result ≡ parsed row.now }
{
    if row.len() > LONGEST || row.is_empty() || is_blank(row[0]) {
        return None;
    }
    let rest = after_head(row)?;
    let (square, rest) = next_number(rest, SQUARE)?;
    let (linear, rest) = next_number(rest, LINEAR)?;
    let (constant, rest) = next_number(rest, CONSTANT)?;
    rest.is_empty().then_some(Coefficients {
        square,
        linear,
        constant,
    })
}

// What the numbers of a row give.
#[tactic(auto, unfolding(crate::specs::Clauses::judged))]
fn judged(numbers: Coefficients) -> Result<Costs, Refusal>
    ensures { result ≡ judged numbers }
{
    let Coefficients {
        square,
        linear,
        constant,
    } = numbers;
    if !square.whole || !linear.whole || !constant.whole {
        return Err(Refusal::GencostNotWhole);
    }
    if SQUARE.exceeded_by(square) || LINEAR.exceeded_by(linear) || CONSTANT.exceeded_by(constant) {
        return Err(Refusal::GencostAboveLimit);
    }
    Ok(Costs {
        c2: square.result as u32,
        c1: linear.result as u32,
        c0: constant.result as u32,
    })
}

// Reads a row: its three coefficients as those of a unit, or why there are none.
pub fn read(row: &[u8]) -> Result<Costs, Refusal>
    ensures { result ≡ gencost_read row.now }
{
    let numbers = parsed(row).ok_or(Refusal::GencostMalformed)?;
    judged(numbers)
}
