//! The explanation of a message.

ghost use Rattle.std.specs.Prelude.{IfOk, string_bytes};
ghost use Rattle.explain.specs.Shown.{Explained};

use crate::items::outline;
use crate::verdict::{Verdict, judge};
use std::alloc::{AllocError, Global};
use std::fmt::Write;

/// The items of a message up to where it breaks, then the line of its verdict.
pub fn explanation(heap: Global, message: &[u8]) -> Result<String, AllocError>
    ensures text { IfOk result (λ s. Explained message.now (string_bytes s)) }
{
    let verdict = Verdict(judge(message));
    let entries = outline(heap, message, verdict.reach(message.len()))?;
    let mut text = String::new(heap);
    for entry in &entries {
        write!(text, "{entry}")?;
    }
    write!(text, "{verdict}")?;
    Ok(text)
}
