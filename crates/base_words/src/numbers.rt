//! The ranges that the types of numbers give. These functions do nothing: their contracts are the laws.
ghost use Rattle.std.specs.Prelude.{◌^◌, ◌<◌};

/// A number of 16 bits is below 2^16.
pub fn a_number_of_16_bits_is_below(number: u16)
    ensures below { number < 2 ^ 16 }
{}

/// A number of 32 bits is below 2^32.
pub fn a_number_of_32_bits_is_below(number: u32)
    ensures below { number < 2 ^ 32 }
{}

/// A number of 64 bits is below 2^64.
pub fn a_number_of_64_bits_is_below(number: u64)
    ensures below { number < 2 ^ 64 }
{}
