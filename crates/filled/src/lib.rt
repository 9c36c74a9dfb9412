// Buffers in which every byte is 0xA5, as the runner lends them, and whether the rest of one is so still: no call ever touches the
// rest, so that the runner's output would not show if this were wrong.
#![tactic(auto)]

ghost use Rattle.std.specs.Prelude.{◌≡◌, ℕ, ◌*◌, length, replicate, drop};
ghost use Rattle.std.specs.Int.{w64, cast_signed};
ghost use Rattle.std.proofs.Common.{rules};
ghost use Rattle.std.specs.List.{list_all};

// The byte that buffers are filled with.
const FILLER: u8 = 0xa5;

// A type of numbers that buffers hold.
pub trait Repeating: Copy + PartialEq {
    ghost repeated: { ℕ → Self };

    // The number of which every byte is `byte`.
    fn repeated(byte: u8) -> Self
        ensures { result ≡ repeated byte };

    ghost clone_succeeds: { (x : Self) → Self.is_infallible x };

    ghost clone_is_same: { (x y : Self) → Self.is_clone x y → y ≡ x };
}

impl Repeating for u8 {
    ghost repeated = { λ byte. byte };

    ghost clone_succeeds = { Prim.search rules };

    ghost clone_is_same = { Prim.search rules };

    fn repeated(byte: u8) -> u8 {
        byte
    }
}

impl Repeating for u32 {
    ghost repeated = { λ byte. byte * 16843009 };

    ghost clone_succeeds = { Prim.search rules };

    ghost clone_is_same = { Prim.search rules };

    fn repeated(byte: u8) -> u32 {
        u32::from(byte) * 0x0101_0101
    }
}

impl Repeating for i64 {
    ghost repeated = { λ byte. cast_signed w64 (byte * 72340172838076673) };

    ghost clone_succeeds = { Prim.search rules };

    ghost clone_is_same = { Prim.search rules };

    fn repeated(byte: u8) -> i64 {
        (u64::from(byte) * 0x0101_0101_0101_0101).cast_signed()
    }
}

pub fn fill<T: Repeating>(buffer: &mut [T])
    ensures { buffer.new ≡ replicate (length buffer.old) (T.repeated 165) }
{
    buffer.fill(T::repeated(FILLER));
}

// Whether the numbers from `from` on are what they were before the call.
pub fn kept<T: Repeating>(buffer: &[T], from: usize) -> bool
    ensures { result ≡ list_all (λ x. T.eq x (T.repeated 165)) (drop from buffer.now) }
{
    let filler = T::repeated(FILLER);
    buffer.iter().skip(from).all(|x| *x == filler)
}
