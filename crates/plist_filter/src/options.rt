//! The options of a command.

use crate::failure::Failure;
use std::alloc::{AllocError, Global};
use std::collections::HashMap;

/// A step of a path: a key, an index in decimal, or any of them.
#[derive(Drop)]
pub enum Step {
    Any,
    Key(String),
}

impl Step {
    /// Returns `true` if a key or an index is at this step.
    pub fn takes(&self, name: &str) -> bool {
        match self {
            Step::Any => true,
            Step::Key(key) => key.as_str() == name,
        }
    }
}

/// The options of a command.
#[derive(Drop)]
pub struct Options {
    pub drops: Vec<Vec<Step>>,
    pub renames: HashMap<String, String>,
    pub depth: usize,
    pub items: u64,
    pub stats: bool,
}

// Returns the steps of a path.
fn steps_of(alloc: Global, path: &str) -> Result<Vec<Step>, AllocError> {
    let mut steps = Vec::new(alloc);
    for part in path.split('/').filter(|part| !part.is_empty()) {
        steps.push(match part {
            "*" => Step::Any,
            key => Step::Key(key.to_string(alloc)?),
        })?;
    }
    Ok(steps)
}

impl Options {
    /// Creates the options of a command without words.
    pub fn new(alloc: Global) -> Self {
        Options {
            drops: Vec::new(alloc),
            renames: HashMap::new(alloc),
            depth: 64,
            items: 1_000_000,
            stats: false,
        }
    }

    // Adds an option. The result is `None` if the word isn't one.
    fn add(&mut self, alloc: Global, word: &str) -> Result<Option<()>, Failure> {
        match word.split_once('=') {
            Some(("drop", path)) => self.drops.push(steps_of(alloc, path)?)?,
            Some(("rename", pair)) => {
                let Some((old, new)) = pair.split_once(':') else {
                    return Ok(None);
                };
                let _old = self
                    .renames
                    .insert(old.to_string(alloc)?, new.to_string(alloc)?)?;
            }
            Some(("depth", number)) => {
                let Ok(depth) = number.parse() else {
                    return Ok(None);
                };
                self.depth = depth;
            }
            Some(("items", number)) => {
                let Ok(items) = number.parse() else {
                    return Ok(None);
                };
                self.items = items;
            }
            None if word == "stats" => self.stats = true,
            _ => return Ok(None),
        }
        Ok(Some(()))
    }

    /// Returns the options that are spelled by words.
    ///
    /// # Errors
    ///
    /// `Usage` for a word that isn't an option, and `OutOfMemory` if an allocation fails.
    pub fn parse(alloc: Global, words: &[String]) -> Result<Self, Failure> {
        let mut options = Options::new(alloc);
        for word in words {
            if options.add(alloc, word.as_str())?.is_none() {
                return Err(Failure::Usage(word.clone()?));
            }
        }
        Ok(options)
    }
}
