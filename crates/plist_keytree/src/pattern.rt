//! Patterns in which `*` stands for any text and `?` for any character.

use crate::failure::Failure;
use std::alloc::Global;

/// Returns `true` if a text matches a pattern.
///
/// # Errors
///
/// `OutOfMemory` if an allocation fails.
pub fn matches(alloc: Global, pattern: &str, text: &str) -> Result<bool, Failure> {
    let pattern: Vec<char> = pattern.chars().collect(alloc)?;
    let text: Vec<char> = text.chars().collect(alloc)?;
    let (mut p, mut t) = (0_usize, 0_usize);
    let mut star: Option<(usize, usize)> = None;
    for _ in 0..u64::MAX {
        let Some(c) = text.get(t) else {
            break;
        };
        match pattern.get(p) {
            Some('*') => {
                star = Some((p, t));
                p = p.saturating_add(1);
            }
            Some(wanted) if *wanted == '?' || wanted == c => {
                p = p.saturating_add(1);
                t = t.saturating_add(1);
            }
            _ => {
                let Some((at, from)) = star else {
                    return Ok(false);
                };
                p = at.saturating_add(1);
                t = from.saturating_add(1);
                star = Some((at, t));
            }
        }
    }
    Ok(pattern.iter().skip(p).all(|c| *c == '*'))
}
