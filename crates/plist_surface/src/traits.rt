//! Which traits a type has: each call compiles only for a type that has the trait.

use std::error::Error;
use std::fmt;
use std::hash::Hash;

pub fn is_copy<T: Copy>(_value: T) {}

pub fn is_eq<T: Eq>(_value: &T) {}

pub fn is_ord<T: Ord>(_value: &T) {}

pub fn is_hash<T: Hash>(_value: &T) {}

pub fn is_debug<T: fmt::Debug>(_value: &T) {}

pub fn is_display<T: fmt::Display>(_value: &T) {}

pub fn is_error<T: Error>(_value: &T) {}
