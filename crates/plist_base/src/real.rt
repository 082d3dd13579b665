//! Reals, which are stored as their bytes.

ghost use Rattle.std.specs.Prelude.{◌≡◌};
ghost use Rattle.plist_base.specs.Scalars.{number_of_real, real_of};

use std::num::{f32_from_bits_with_nan, f64_from_bits_with_nan, f64_to_bits_with_nan};

/// A real, stored as its big-endian bytes: four of a `binary32`, or eight of a `binary64`.
/// [`RealBits::to_f64`] converts it to an `f64`, and [`RealBits::from_f64`] encodes an `f64`:
///
/// ```text
/// let number = value.as_real()?.to_f64();
/// let value = Value::Real(RealBits::from_f64(number));
/// ```
///
/// Two reals are equal if they have the same width and the same bytes. So the two zeros differ,
/// reals of different widths differ, and a NaN is equal to itself.
#[derive(Clone, Copy, Debug, PartialEq, Eq, Hash)]
pub enum RealBits {
    /// A `binary32`.
    Four([u8; 4]),
    /// A `binary64`.
    Eight([u8; 8]),
}

impl RealBits {
    /// Returns the number that the bytes encode. The conversion is exact, since every `binary32`
    /// number is a `binary64` number.
    ///
    /// Any NaN is converted to a NaN with an unspecified sign and payload.
    ///
    /// # Examples
    ///
    /// ```rust
    /// let number = value.as_real()?.to_f64();
    /// Some(Value::Real(RealBits::from_f64(number)))
    /// ```
    pub fn to_f64(self) -> f64
        ensures value { result ≡ number_of_real self }
    {
        match self {
            RealBits::Four(bytes) => f64::from(f32_from_bits_with_nan(u32::from_be_bytes(bytes))),
            RealBits::Eight(bytes) => f64_from_bits_with_nan(u64::from_be_bytes(bytes)),
        }
    }

    /// Encodes a number in eight bytes. All NaNs have the same encoding.
    ///
    /// # Examples
    ///
    /// ```rust
    /// let number = value.as_real()?.to_f64();
    /// Some(Value::Real(RealBits::from_f64(number)))
    /// ```
    pub fn from_f64(number: f64) -> RealBits
        ensures value { result ≡ real_of number }
    {
        RealBits::Eight(f64_to_bits_with_nan(number).to_be_bytes())
    }
}
