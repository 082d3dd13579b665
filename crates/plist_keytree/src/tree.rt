//! Prints the objects that a value refers to, as a tree. What remains to be printed is on a stack,
//! since the prover doesn't know that a recursion along Uids ends.

use crate::archive::{Keyed, brief};
use crate::failure::Failure;
use plist::{Dictionary, Uid, Value};
use std::alloc::Global;
use std::borrow::CowStr;
use std::collections::HashSet;
use std::io::Write;

// What remains to be done.
#[derive(Drop)]
enum Work<'a> {
    // A value is to be printed.
    Print { value: &'a Value, label: CowStr<'a> },
    // The innermost open object is complete.
    Close,
}

/// A printer of trees.
#[derive(Drop)]
pub struct Printer<'a> {
    alloc: Global,
    archive: Keyed<'a>,
    // What remains to be done, the next last.
    work: Vec<Work<'a>>,
    // The objects whose fields are being printed.
    open: Vec<u64>,
    // The objects that were printed.
    seen: HashSet<u64>,
}

impl<'a> Printer<'a> {
    /// Creates a printer for an archive.
    pub fn new(alloc: Global, archive: Keyed<'a>) -> Self {
        Printer {
            alloc,
            archive,
            work: Vec::new(alloc),
            open: Vec::new(alloc),
            seen: HashSet::new(alloc),
        }
    }

    /// Prints a value and the objects below it.
    ///
    /// # Errors
    ///
    /// `OutOfMemory` if an allocation fails, `Io` if a write fails, and `YearOutOfRange` for a date
    /// that has no text.
    pub fn print<W: Write>(
        &mut self,
        out: &mut W,
        value: &'a Value,
        key: &'a str,
    ) -> Result<(), Failure> {
        let label = CowStr::Borrowed(key);
        self.work.push(Work::Print { value, label })?;
        for _ in 0..u64::MAX {
            match self.work.pop() {
                None => break,
                Some(Work::Close) => {
                    self.open.pop();
                }
                Some(Work::Print { value, label }) => self.print_one(out, value, label.as_str())?,
            }
        }
        Ok(())
    }

    // Prints a value, and adds those directly below it to what remains.
    fn print_one<W: Write>(
        &mut self,
        out: &mut W,
        value: &'a Value,
        label: &str,
    ) -> Result<(), Failure> {
        let pad = "  ".repeat(self.alloc, self.open.len())?;
        match value {
            Value::Uid(uid) => {
                write!(out, "{pad}{label}: ")?;
                self.print_object(out, *uid)
            }
            Value::Array(items) => {
                writeln!(out, "{pad}{label}: {} items", items.len())?;
                for (index, value) in items.iter().enumerate().rev() {
                    let label = CowStr::Owned(format!(in self.alloc; "  {label}[{index}]")?);
                    self.work.push(Work::Print { value, label })?;
                }
                Ok(())
            }
            other => {
                writeln!(out, "{pad}{label}: {}", brief(self.alloc, other)?)?;
                Ok(())
            }
        }
    }

    // Prints the object with a Uid, and adds its fields to what remains.
    fn print_object<W: Write>(&mut self, out: &mut W, uid: Uid) -> Result<(), Failure> {
        let id = uid.get();
        if self.open.contains(&id) {
            writeln!(out, "#{id} (cycle)")?;
            return Ok(());
        }
        let Some(object) = self.archive.follow(uid) else {
            writeln!(out, "#{id} (dangling)")?;
            return Ok(());
        };
        if object.as_string() == Some("$null") {
            writeln!(out, "null")?;
            return Ok(());
        }
        let first = self.seen.insert(id)?;
        let Some(fields) = object.as_dictionary() else {
            writeln!(out, "{} #{id}", brief(self.alloc, object)?)?;
            return Ok(());
        };
        let name = self.archive.class_of(object).unwrap_or("?");
        if !first {
            writeln!(out, "{name} #{id} (above)")?;
            return Ok(());
        }
        writeln!(out, "{name} #{id}")?;
        self.open.push(id)?;
        self.work.push(Work::Close)?;
        self.add_fields(fields)
    }

    // Adds the fields of an object to what remains, or the values of a dictionary under their keys.
    fn add_fields(&mut self, fields: &'a Dictionary) -> Result<(), Failure> {
        if let (Some(Value::Array(keys)), Some(Value::Array(items))) = (
            fields.get("NS.keys"),
            fields.get("NS.objects"),
        ) {
            for (key, value) in keys.iter().zip(items).rev() {
                let key = self.archive.text_of(key).unwrap_or("?");
                let label = CowStr::Owned(format!(in self.alloc; "[{key}]")?);
                self.work.push(Work::Print { value, label })?;
            }
            return Ok(());
        }
        let shown: Vec<_> = fields
            .iter()
            .filter(|(key, _)| key.as_str() != "$class")
            .collect(self.alloc)?;
        for (key, value) in shown.into_iter().rev() {
            let label = CowStr::Borrowed(key.as_str());
            self.work.push(Work::Print { value, label })?;
        }
        Ok(())
    }
}
