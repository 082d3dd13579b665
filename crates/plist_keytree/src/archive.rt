//! A keyed archive, and what its Uids reach.

use crate::failure::Failure;
use plist::{Dictionary, Error, Uid, Value};
use std::alloc::Global;
use std::collections::{BTreeMap, HashMap, VecDeque};

/// A keyed archive, which borrows its parts from a value.
#[derive(Clone, Copy)]
pub struct Keyed<'a> {
    pub objects: &'a [Value],
    pub top: &'a Dictionary,
}

/// The objects that no chain of Uids reaches from `$top`, each with its index, and the Uids that
/// lead nowhere, each with the number of times that it occurs.
pub type Reach<'a> = (Vec<(usize, &'a Value)>, BTreeMap<u64, usize>);

impl<'a> Keyed<'a> {
    /// Returns the archive in a value.
    ///
    /// # Errors
    ///
    /// `NotAnArchive` if a part is missing.
    pub fn new(value: &'a Value) -> Result<Self, Failure> {
        let root = value
            .as_dictionary()
            .ok_or(Failure::NotAnArchive("the root"))?;
        match root.get("$archiver").and_then(Value::as_string) {
            Some("NSKeyedArchiver") | Some("NRKeyedArchiver") => {}
            _ => return Err(Failure::NotAnArchive("$archiver")),
        }
        let objects = root
            .get("$objects")
            .and_then(Value::as_array)
            .ok_or(Failure::NotAnArchive("$objects"))?;
        let top = root
            .get("$top")
            .and_then(Value::as_dictionary)
            .ok_or(Failure::NotAnArchive("$top"))?;
        Ok(Keyed {
            objects: objects.as_slice(),
            top,
        })
    }

    /// Returns the object with the given Uid, or `None` if the archive has no such object.
    pub fn follow(&self, uid: Uid) -> Option<&'a Value> {
        self.objects.get(usize::try_from(uid.get()).ok()?)
    }

    /// Returns the name of an object's class, if it has one.
    pub fn class_of(&self, object: &Value) -> Option<&'a str> {
        let class = object.as_dictionary()?.get("$class")?.as_uid()?;
        self.follow(*class)?
            .as_dictionary()?
            .get("$classname")?
            .as_string()
    }

    /// Returns a string, or the string with a Uid.
    pub fn text_of(&self, value: &'a Value) -> Option<&'a str> {
        match value {
            Value::Uid(uid) => self.follow(*uid)?.as_string(),
            other => other.as_string(),
        }
    }

    /// Returns the names of the classes, each with the number of its objects, the most frequent
    /// first.
    ///
    /// # Errors
    ///
    /// `OutOfMemory` if an allocation fails.
    pub fn classes(&self, alloc: Global) -> Result<Vec<(&'a str, usize)>, Failure> {
        let mut counts: HashMap<&str, usize> = HashMap::new(alloc);
        for name in self
            .objects
            .iter()
            .filter_map(|object| self.class_of(object))
        {
            let count = counts.entry(name)?.or_default();
            *count = count.saturating_add(1);
        }
        let mut sorted: Vec<_> = counts.into_iter().collect(alloc)?;
        sorted.sort_by(|a, b| b.1.cmp(&a.1).then(a.0.cmp(b.0)))?;
        Ok(sorted)
    }

    /// Returns what no chain of Uids reaches, and the Uids that lead nowhere.
    ///
    /// # Errors
    ///
    /// `OutOfMemory` if an allocation fails.
    pub fn reach(&self, alloc: Global) -> Result<Reach<'a>, Failure> {
        let mut reached = vec![in alloc; false; self.objects.len()]?;
        let mut dangling = BTreeMap::new(alloc);
        let mut queue: VecDeque<&Value> = self.top.values().collect(alloc)?;
        for _ in 0..u64::MAX {
            let Some(value) = queue.pop_front() else {
                break;
            };
            match value {
                Value::Uid(uid) => match (self.follow(*uid), reached.get_mut(uid.get() as usize)) {
                    (Some(object), Some(place)) => {
                        if !std::mem::replace(place, true) {
                            queue.push_back(object)?;
                        }
                    }
                    _ => {
                        let times = dangling.entry(uid.get())?.or_insert(0);
                        *times = usize::saturating_add(*times, 1);
                    }
                },
                Value::Array(items) => queue.extend(items.iter())?,
                Value::Dictionary(fields) => queue.extend(fields.values())?,
                _ => {}
            }
        }
        let mut lost = Vec::new(alloc);
        for (index, (object, reached)) in self.objects.iter().zip(&reached).enumerate() {
            if !*reached && index != 0 {
                lost.push((index, object))?;
            }
        }
        Ok((lost, dangling))
    }
}

/// Returns a short text for a value.
///
/// # Errors
///
/// `OutOfMemory` if an allocation fails, and `YearOutOfRange` for a date that has no text.
pub fn brief(alloc: Global, value: &Value) -> Result<String, Error> {
    Ok(match value {
        Value::String(text) if text.chars().count() > 40 => {
            let start: String = text.chars().take(40).collect(alloc)?;
            format!(in alloc; "{start:?}..")?
        }
        Value::String(text) => format!(in alloc; "{text:?}")?,
        Value::Integer(number) => number.to_string(alloc)?,
        Value::Real(number) => number.to_f64().to_string(alloc)?,
        Value::Boolean(flag) => flag.to_string(alloc)?,
        Value::Data(bytes) => format!(in alloc; "{} bytes", bytes.len())?,
        Value::Date(date) => date.start_of_second().to_xml_format(alloc)?,
        Value::Array(items) => format!(in alloc; "{} items", items.len())?,
        Value::Dictionary(pairs) => format!(in alloc; "{} pairs", pairs.len())?,
        Value::Uid(uid) => format!(in alloc; "#{}", uid.get())?,
    })
}
