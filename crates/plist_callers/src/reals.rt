//! Proved callers of reals: the number of a real value, and the real of a number.

ghost use Rattle.std.specs.Prelude.{◌≡◌, Some, option_map};
ghost use Rattle.plist_base.specs.Scalars.{number_of_real, real_of};
ghost use Rattle.plist.specs.Accessors.{real_in};
ghost use Rattle.plist.specs.ValueTrees.{tree_of};

use plist::{RealBits, Value};

/// Returns the number of a value that is a real, or `None` if the value isn't one.
pub fn number_in_value(value: &Value) -> Option<f64>
    ensures { result ≡ option_map number_of_real (real_in (tree_of value.now)) }
{
    Some(value.as_real()?.to_f64())
}

/// Converts a number to the value of a real, and returns that real.
pub fn real_of_number(number: f64) -> Option<RealBits>
    ensures { result ≡ Some (real_of number) }
{
    Value::Real(RealBits::from_f64(number)).as_real()
}
