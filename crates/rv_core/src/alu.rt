// What the instructions compute, on words of 32 bits.
ghost use Rattle.std.specs.Prelude.{◌≡◌, ℕ, ◌*◌, ◌+◌, ◌-◌, ◌/◌, ◌%◌, ◌^◌, ◌<◌, ◌==◌, ◌*ℤ◌, pos};
ghost use Rattle.std.specs.Prelude.{if◌then◌else◌};
ghost use Rattle.rv_decode.specs.Address.{next_address, int_word, plus, word};
ghost use Rattle.crpd_base.specs.Sum.{one_if};
ghost use Rattle.rv_core.specs.Effect.{sign_extension, high, quotient, remainder, shift_signed};
ghost use Rattle.rv_core.specs.Effect.{signed_lt, to_signed};

/// A word and an immediate, modulo 2^32.
pub(crate) fn plus(a: u32, imm: i32) -> u32
    ensures { result ≡ plus a imm }
{
    a.wrapping_add(imm.cast_unsigned())
}

/// The word of an immediate.
pub(crate) fn int_word(imm: i32) -> u32
    ensures { result ≡ int_word imm }
{
    imm.cast_unsigned()
}

/// The address after an instruction's own.
pub(crate) fn after(pc: u32) -> u32
    ensures { result ≡ next_address pc }
{
    pc.wrapping_add(4)
}

pub(crate) fn signed_lt(a: u32, b: u32) -> bool
    ensures { result ≡ signed_lt a b }
{
    a.cast_signed() < b.cast_signed()
}

pub(crate) fn one_if(test: bool) -> u32
    ensures { result ≡ one_if test }
{
    if test { 1 } else { 0 }
}

/// A byte, sign extended to 32 bits.
pub(crate) fn byte_extended(byte: u8) -> u32
    ensures { result ≡ sign_extension 8 byte }
{
    if byte < 128 {
        byte as u32
    } else {
        byte as u32 + 0xFFFF_FF00
    }
}

/// Two bytes, sign extended to 32 bits.
pub(crate) fn half_extended(half: u32) -> u32
    requires { half < 2 ^ 16 }
    ensures { result ≡ sign_extension 16 half }
{
    if half < 32_768 {
        half
    } else {
        half + 0xFFFF_0000
    }
}

pub(crate) fn shift_left(a: u32, amount: u32) -> u32
    requires { amount < 32 }
    ensures { result ≡ word (a * 2 ^ amount) }
{
    a << amount
}

pub(crate) fn shift_right(a: u32, amount: u32) -> u32
    requires { amount < 32 }
    ensures { result ≡ a / 2 ^ amount }
{
    a >> amount
}

/// An arithmetic shift right.
pub(crate) fn shift_signed(a: u32, amount: u32) -> u32
    requires { amount < 32 }
    ensures { result ≡ shift_signed a amount }
{
    (a.cast_signed() >> amount).cast_unsigned()
}

/// The high 32 bits of a product.
fn high(product: i64) -> u32
    ensures { result ≡ high product }
{
    ((product >> 32) as i32).cast_unsigned()
}

/// The high word of the product of two signed words.
pub(crate) fn high_signed(a: u32, b: u32) -> u32
    ensures { result ≡ high (to_signed a *ℤ to_signed b) }
{
    high(a.cast_signed() as i64 * b.cast_signed() as i64)
}

/// The high word of the product of a signed and an unsigned word.
pub(crate) fn high_mixed(a: u32, b: u32) -> u32
    ensures { result ≡ high (to_signed a *ℤ pos b) }
{
    high(a.cast_signed() as i64 * b as i64)
}

/// The high word of the product of two unsigned words.
pub(crate) fn high_unsigned(a: u32, b: u32) -> u32
    ensures { result ≡ high (pos a *ℤ pos b) }
{
    (a as u64 * b as u64 >> 32) as u32
}

/// The signed quotient towards zero: all ones for a zero divisor, and -2^31 for -2^31 by -1.
pub(crate) fn quotient(a: u32, b: u32) -> u32
    ensures { result ≡ quotient a b }
{
    if b == 0 {
        u32::MAX
    } else {
        a.cast_signed()
            .wrapping_div(b.cast_signed())
            .cast_unsigned()
    }
}

/// The signed remainder, with the sign of the dividend; by a zero divisor, the dividend.
pub(crate) fn remainder(a: u32, b: u32) -> u32
    ensures { result ≡ remainder a b }
{
    if b == 0 {
        a
    } else {
        a.cast_signed()
            .wrapping_rem(b.cast_signed())
            .cast_unsigned()
    }
}

pub(crate) fn quotient_unsigned(a: u32, b: u32) -> u32
    ensures { result ≡ (if b == 0 then 2 ^ 32 - 1 else a / b) }
{
    if b == 0 { u32::MAX } else { a / b }
}

pub(crate) fn remainder_unsigned(a: u32, b: u32) -> u32
    ensures { result ≡ (if b == 0 then a else a % b) }
{
    if b == 0 { a } else { a % b }
}
