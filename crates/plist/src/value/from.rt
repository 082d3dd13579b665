//! Conversions into values. None of them allocates memory.

ghost use Rattle.std.specs.Prelude.{◌≡◌, pos};
ghost use Rattle.plist.specs.declared.value.Value.TheVariants as made;

use crate::{Dictionary, Value};
use plist_base::{Date, Integer};

impl From<Vec<Value>> for Value {
    ghost from_gives = { λ items value. value ≡ made.Array items };

    fn from(value: Vec<Value>) -> Value {
        Value::Array(value)
    }
}

impl From<Dictionary> for Value {
    ghost from_gives = { λ pairs value. value ≡ made.Dictionary pairs };

    fn from(value: Dictionary) -> Value {
        Value::Dictionary(value)
    }
}

impl From<bool> for Value {
    ghost from_gives = { λ flag value. value ≡ made.Boolean flag };

    fn from(value: bool) -> Value {
        Value::Boolean(value)
    }
}

impl From<Date> for Value {
    ghost from_gives = { λ date value. value ≡ made.Date date };

    fn from(value: Date) -> Value {
        Value::Date(value)
    }
}

impl From<i64> for Value {
    ghost from_gives = { λ number value. value ≡ made.Integer number };

    fn from(value: i64) -> Value {
        Value::Integer(Integer::from(value))
    }
}

impl From<i32> for Value {
    ghost from_gives = { λ number value. value ≡ made.Integer number };

    fn from(value: i32) -> Value {
        Value::Integer(Integer::from(value))
    }
}

impl From<i16> for Value {
    ghost from_gives = { λ number value. value ≡ made.Integer number };

    fn from(value: i16) -> Value {
        Value::Integer(Integer::from(value))
    }
}

impl From<i8> for Value {
    ghost from_gives = { λ number value. value ≡ made.Integer number };

    fn from(value: i8) -> Value {
        Value::Integer(Integer::from(value))
    }
}

impl From<u64> for Value {
    ghost from_gives = { λ number value. value ≡ made.Integer (pos number) };

    fn from(value: u64) -> Value {
        Value::Integer(Integer::from(value))
    }
}

impl From<u32> for Value {
    ghost from_gives = { λ number value. value ≡ made.Integer (pos number) };

    fn from(value: u32) -> Value {
        Value::Integer(Integer::from(value))
    }
}

impl From<u16> for Value {
    ghost from_gives = { λ number value. value ≡ made.Integer (pos number) };

    fn from(value: u16) -> Value {
        Value::Integer(Integer::from(value))
    }
}

impl From<u8> for Value {
    ghost from_gives = { λ number value. value ≡ made.Integer (pos number) };

    fn from(value: u8) -> Value {
        Value::Integer(Integer::from(value))
    }
}

impl From<String> for Value {
    ghost from_gives = { λ text value. value ≡ made.String text };

    fn from(value: String) -> Value {
        Value::String(value)
    }
}

/// Makes a value from a reference to anything that is copied and becomes a value, such as a number.
impl<'a, T: Copy + Into<Value>> From<&'a T> for Value {
    ghost from_gives = { λ borrowed value. T.Into.converts borrowed.now value };

    fn from(value: &'a T) -> Value {
        (*value).into()
    }
}
