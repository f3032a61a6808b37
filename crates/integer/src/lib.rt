// Signed 32-bit and 64-bit numbers, their two's complement patterns, and arithmetic that is exact or leaves the width.
#![tactic(auto)]

ghost use Rattle.std.specs.Prelude.{◌≡◌, ◌+ℤ◌, ◌-ℤ◌, neg_ℤ};
ghost use Rattle.std.specs.Int.{w32, w64};
ghost use Rattle.std.proofs.Common.{to_z, of_z};
ghost use Rattle.integer.specs.Range.{int_sum, long_sum};

// The number whose pattern is n.
pub fn int_of(n: u32) -> i32
    ensures { result ≡ to_z w32 n }
{
    n.cast_signed()
}

// The pattern of x.
pub fn int_bits(x: i32) -> u32
    ensures { result ≡ of_z w32 x }
{
    x.cast_unsigned()
}

#[tactic(auto, using(crate::proofs::Exact::int_added))]
pub fn int_add(a: i32, b: i32) -> Option<i32>
    ensures { result ≡ int_sum (a +ℤ b) }
{
    i32::checked_add(a, b)
}

#[tactic(auto, using(crate::proofs::Exact::int_subtracted))]
pub fn int_subtract(a: i32, b: i32) -> Option<i32>
    ensures { result ≡ int_sum (a -ℤ b) }
{
    i32::checked_sub(a, b)
}

// Of the least number alone the opposite is outside.
pub fn int_negate(a: i32) -> Option<i32>
    ensures { result ≡ int_sum (neg_ℤ a) }
{
    i32::checked_neg(a)
}

// The number whose pattern is n.
pub fn long_of(n: u64) -> i64
    ensures { result ≡ to_z w64 n }
{
    n.cast_signed()
}

// The pattern of x.
pub fn long_bits(x: i64) -> u64
    ensures { result ≡ of_z w64 x }
{
    x.cast_unsigned()
}

#[tactic(auto, using(crate::proofs::Exact::long_added))]
pub fn long_add(a: i64, b: i64) -> Option<i64>
    ensures { result ≡ long_sum (a +ℤ b) }
{
    i64::checked_add(a, b)
}

pub fn long_subtract(a: i64, b: i64) -> Option<i64>
    ensures { result ≡ long_sum (a -ℤ b) }
{
    i64::checked_sub(a, b)
}

// Of the least number alone the opposite is outside.
pub fn long_negate(a: i64) -> Option<i64>
    ensures { result ≡ long_sum (neg_ℤ a) }
{
    i64::checked_neg(a)
}
