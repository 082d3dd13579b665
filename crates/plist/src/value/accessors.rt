//! Access to the content of a value of a known kind. No call allocates memory.

ghost use Rattle.std.specs.Prelude.{◌≡◌, ◌↔◌, ◌^◌, ◌<ℤ◌, ◌≤ℤ◌, IfSome, IsSome, IsSomeAnd, Some, option_map, pos};
ghost use Rattle.std.specs.Option.{option_copied};
ghost use Rattle.plist.specs.Accessors.{array_in, boolean_in, data_in, date_in, dictionary_in, integer_in, real_in, text_in, uid_in};
ghost use Rattle.plist.specs.ValueTrees.{item_trees, pair_trees, pairs_of, tree_of};

use crate::{Dictionary, Value};
use plist_base::{Date, RealBits, Uid};

impl Value {
    ghost use Rattle.std.specs.Borrow.{sem};
    ghost use Rattle.plist.specs.declared.value.Value.TheVariants as made;
    ghost use Rattle.plist.specs.Lends.{LendsArray, LendsDictionary};

    /// Returns the array, or `None` if the value isn't one.
    ///
    /// # Examples
    ///
    /// ```rust
    /// let mut sum: u64 = 0;
    /// for item in value.as_array()? {
    ///     sum = sum.saturating_add(item.as_unsigned_integer()?);
    /// }
    /// Some(sum)
    /// ```
    pub fn as_array(&self) -> Option<&Vec<Value>>
        ensures value { option_map (λ a. item_trees a.now.items) result
            ≡ array_in (tree_of self.now) }
        ensures made { IfSome result (λ items. self.now ≡ made.Array items.now) }
    {
        let Value::Array(array) = self else {
            return None;
        };
        Some(array)
    }

    /// Returns a mutable reference to the array, or `None` if the value isn't one.
    ///
    /// # Examples
    ///
    /// ```rust
    /// let items = settings.get_mut("Offsets")?.as_array_mut()?;
    /// items.push(Value::from(7_i64)).ok()?;
    /// Some(items.len() as u64)
    /// ```
    pub fn as_array_mut(&mut self) -> Option<&mut Vec<Value>>
        ensures value { option_map (λ a. item_trees a.now.items) result
            ≡ array_in (tree_of self.old) }
        ensures made { IfSome result (λ items. self.old ≡ made.Array items.now) }
        ensures* writes_back { sem 𝓛 (LendsArray self.entry result self.old) }
    {
        let Value::Array(borrowed) = self else {
            return None;
        };
        Some(borrowed)
    }

    /// Returns the dictionary, or `None` if the value isn't one.
    ///
    /// # Examples
    ///
    /// ```rust
    /// value.as_dictionary()?.get(key)?.as_signed_integer()
    /// ```
    pub fn as_dictionary(&self) -> Option<&Dictionary>
        ensures value { option_map (λ d. pair_trees (pairs_of d.now)) result
            ≡ dictionary_in (tree_of self.now) }
        ensures made { IfSome result (λ pairs. self.now ≡ made.Dictionary pairs.now) }
    {
        let Value::Dictionary(dictionary) = self else {
            return None;
        };
        Some(dictionary)
    }

    /// Returns a mutable reference to the dictionary, or `None` if the value isn't one.
    ///
    /// # Examples
    ///
    /// ```rust
    /// let pairs = settings.as_dictionary_mut()?;
    /// *pairs.get_mut("Name")? = Value::String(name);
    /// Some(())
    /// ```
    pub fn as_dictionary_mut(&mut self) -> Option<&mut Dictionary>
        ensures value { option_map (λ d. pair_trees (pairs_of d.now)) result
            ≡ dictionary_in (tree_of self.old) }
        ensures made { IfSome result (λ pairs. self.old ≡ made.Dictionary pairs.now) }
        ensures* writes_back { sem 𝓛 (LendsDictionary self.entry result self.old) }
    {
        let Value::Dictionary(borrowed) = self else {
            return None;
        };
        Some(borrowed)
    }

    /// Returns the Boolean, or `None` if the value isn't one.
    ///
    /// # Examples
    ///
    /// ```rust
    /// match settings.get("Enabled") {
    ///     Some(value) => value.as_boolean() == Some(true),
    ///     None => false,
    /// }
    /// ```
    pub fn as_boolean(&self) -> Option<bool>
        ensures { result ≡ boolean_in (tree_of self.now) }
    {
        let Value::Boolean(value) = self else {
            return None;
        };
        Some(*value)
    }

    /// Returns the bytes of data, or `None` if the value isn't data.
    ///
    /// # Examples
    ///
    /// ```rust
    /// icon.as_data()?.first().copied()
    /// ```
    pub fn as_data(&self) -> Option<&[u8]>
        ensures { option_copied result ≡ data_in (tree_of self.now) }
    {
        let Value::Data(bytes) = self else {
            return None;
        };
        Some(bytes.as_slice())
    }

    /// Returns the date, or `None` if the value isn't one.
    ///
    /// # Examples
    ///
    /// ```rust
    /// let value = Value::Date(Date::from_unix_secs(0)?);
    /// value.as_date()?.to_xml_format(alloc).ok()
    /// ```
    pub fn as_date(&self) -> Option<Date>
        ensures { result ≡ date_in (tree_of self.now) }
    {
        let Value::Date(date) = self else {
            return None;
        };
        Some(*date)
    }

    /// Returns the bytes of a real, or `None` if the value isn't one.
    ///
    /// # Examples
    ///
    /// ```rust
    /// let number = value.as_real()?.to_f64();
    /// Some(Value::Real(RealBits::from_f64(number)))
    /// ```
    pub fn as_real(&self) -> Option<RealBits>
        ensures { result ≡ real_in (tree_of self.now) }
    {
        let Value::Real(bits) = self else {
            return None;
        };
        Some(*bits)
    }

    /// Returns the number if the value is an integer that fits into an `i64`, and otherwise `None`.
    ///
    /// # Examples
    ///
    /// ```rust
    /// let settings = Value::from_reader(alloc, file).ok()?;
    /// settings
    ///     .as_dictionary()?
    ///     .get("Version")?
    ///     .as_signed_integer()
    /// ```
    pub fn as_signed_integer(&self) -> Option<i64>
        // No `Integer` is below -2^63, so it only has to be below 2^63.
        ensures fits { IsSome result
            ↔ IsSomeAnd (integer_in (tree_of self.now)) (λ n. n <ℤ pos (2 ^ 63)) }
        ensures value { IfSome result (λ n. integer_in (tree_of self.now) ≡ Some n) }
    {
        let Value::Integer(number) = self else {
            return None;
        };
        number.as_signed()
    }

    /// Returns the number if the value is an integer that isn't negative, and otherwise `None`.
    ///
    /// # Examples
    ///
    /// ```rust
    /// let mut sum: u64 = 0;
    /// for item in value.as_array()? {
    ///     sum = sum.saturating_add(item.as_unsigned_integer()?);
    /// }
    /// Some(sum)
    /// ```
    pub fn as_unsigned_integer(&self) -> Option<u64>
        ensures fits { IsSome result
            ↔ IsSomeAnd (integer_in (tree_of self.now)) (λ n. pos 0 ≤ℤ n) }
        ensures value { IfSome result (λ n. integer_in (tree_of self.now) ≡ Some (pos n)) }
    {
        let Value::Integer(number) = self else {
            return None;
        };
        number.as_unsigned()
    }

    /// Returns the string, or `None` if the value isn't one.
    ///
    /// # Examples
    ///
    /// ```rust
    /// settings.get("Name")?.as_string()
    /// ```
    pub fn as_string(&self) -> Option<&str>
        ensures { option_copied result ≡ text_in (tree_of self.now) }
    {
        let Value::String(text) = self else {
            return None;
        };
        Some(text.as_str())
    }

    /// Returns the Uid, or `None` if the value isn't one.
    pub fn into_uid(self) -> Option<Uid>
        ensures { result ≡ uid_in (tree_of self) }
    {
        let Value::Uid(uid) = self else {
            self.destroy();
            return None;
        };
        Some(uid)
    }

    /// Returns the Uid, or `None` if the value isn't one.
    ///
    /// # Examples
    ///
    /// ```rust
    /// Some(reference.as_uid()?.get())
    /// ```
    pub fn as_uid(&self) -> Option<&Uid>
        ensures { option_copied result ≡ uid_in (tree_of self.now) }
    {
        let Value::Uid(borrowed) = self else {
            return None;
        };
        Some(borrowed)
    }
}
