// Big-endian numbers in byte slices. One loop reads and one loop writes a number of any width up to eight bytes; `read` and
// `write` are calls of them at the width of a number type. A signed number is in two's complement.
#![tactic(auto)]

ghost use Rattle.std.specs.Prelude.{◌≡◌, ℕ, ◌+◌, ◌≤◌, ◌<◌, ◌^◌, length};
ghost use Rattle.std.proofs.Common.{rules};
ghost use Rattle.fields.specs.Field.{field, unsigned, signed, written};

// A type of numbers that a field of `WIDTH` bytes holds, each as the number that stands for it.
pub trait Number: Copy {
    ghost WIDTH: { ℕ };

    ghost from_field: { ℕ → Self };

    ghost into_field: { Self → ℕ };

    const WIDTH: usize;

    // The number that `n` stands for.
    fn from_field(n: u64) -> Self
        requires { n < 256 ^ WIDTH }
        ensures { result ≡ from_field n };

    // The number that stands for it.
    fn into_field(self) -> u64
        ensures { result ≡ into_field self };

    ghost at_most_eight: { WIDTH ≤ 8 };
}

impl Number for u16 {
    ghost WIDTH = { 2 };

    ghost from_field = { λ n. n };

    ghost into_field = { λ n. n };

    ghost at_most_eight = { Prim.search rules };

    const WIDTH: usize = 2;

    fn from_field(n: u64) -> u16 {
        n as u16
    }

    fn into_field(self) -> u64 {
        u64::from(self)
    }
}

impl Number for u32 {
    ghost WIDTH = { 4 };

    ghost from_field = { λ n. n };

    ghost into_field = { λ n. n };

    ghost at_most_eight = { Prim.search rules };

    const WIDTH: usize = 4;

    fn from_field(n: u64) -> u32 {
        n as u32
    }

    fn into_field(self) -> u64 {
        u64::from(self)
    }
}

impl Number for u64 {
    ghost WIDTH = { 8 };

    ghost from_field = { λ n. n };

    ghost into_field = { λ n. n };

    ghost at_most_eight = { Prim.search rules };

    const WIDTH: usize = 8;

    fn from_field(n: u64) -> u64 {
        n
    }

    fn into_field(self) -> u64 {
        self
    }
}

impl Number for i32 {
    ghost WIDTH = { 4 };

    ghost from_field = { signed 4 };

    ghost into_field = { unsigned 4 };

    ghost at_most_eight = { Prim.search rules };

    const WIDTH: usize = 4;

    #[tactic(auto, using(crate::proofs::Signed::signed_32))]
    fn from_field(n: u64) -> i32 {
        (n as u32).cast_signed()
    }

    #[tactic(auto, using(crate::proofs::Signed::unsigned_32))]
    fn into_field(self) -> u64 {
        u64::from(self.cast_unsigned())
    }
}

// The number in the `width` bytes of `s` from `at` on. It goes from the first byte to the last.
#[tactic(auto, using(crate::proofs::Width::reading_small, crate::proofs::Width::reading_ends))]
pub fn read_number(s: &[u8], at: usize, width: usize) -> u64
    requires { (width ≤ 8) × (at + width ≤ length s.now) }
    ensures { (result ≡ field s.now at width) × (result < 256 ^ width) }
{
    let mut n: u64 = 0;
    for byte in &s[at..at + width] {
        n = n * 256 + u64::from(*byte);
    }
    n
}

// Writes the low `width` bytes of `n` into `s` from `at` on. It goes from the last byte to the first.
#[tactic(auto, using(crate::proofs::Width::writing_last, crate::proofs::Width::writing_none))]
pub fn write_number(s: &mut [u8], at: usize, width: usize, n: u64)
    requires { (width ≤ 8) × (at + width ≤ length s.old) }
    ensures { s.new ≡ written s.old at width n }
{
    let mut rest = n;
    for i in (0..width).rev() {
        s[at + i] = (rest % 256) as u8;
        rest /= 256;
    }
}

// The number in the bytes of `s` from `at` on, as many as its type has.
pub fn read<T: Number>(s: &[u8], at: usize) -> T
    requires { at + T.WIDTH ≤ length s.now }
    ensures { result ≡ T.from_field (field s.now at T.WIDTH) }
{
    T::from_field(read_number(s, at, T::WIDTH))
}

// Writes `n` into the bytes of `s` from `at` on, as many as its type has.
pub fn write<T: Number>(s: &mut [u8], at: usize, n: T)
    requires { at + T.WIDTH ≤ length s.old }
    ensures { s.new ≡ written s.old at T.WIDTH (T.into_field n) }
{
    write_number(s, at, T::WIDTH, n.into_field());
}
