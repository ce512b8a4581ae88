//! What the bench answers to a line.

ghost use Rattle.std.specs.Prelude.{◌≡◌};
ghost use Rattle.lines.specs.Line.{content_of, is_skipped, words};
ghost use Rattle.bench.specs.Asked.{asked};
ghost use Rattle.keybench.specs.Replied.{Printed, Ran};

use bench::{Bench, Wrong, parse};
use std::alloc::{AllocError, Global};

const HELP: &str = "\
digest HEX         SHA-256 of the bytes
hmac KEY HEX       HMAC-SHA-256 of the bytes under the key
tag TOKEN SUB HEX  the first 16 bytes of the HMAC under the token, of SUB and then the bytes
read HEX           the verdict on a message, and the place where it breaks
explain HEX        the items of a message up to where it breaks, then the line of read
help               these lines
";

/// The bench of the steps: it keeps nothing from one line to the next.
#[derive(Drop)]
pub struct Keybench;

impl Bench for Keybench {
    ghost answers = { λ _ line shown _. Printed (is_skipped (content_of line)) (asked (words (content_of line))) shown };

    ghost leaves = { λ before _ after. after ≡ before };

    fn answer(&mut self, heap: Global, line: &[u8]) -> Result<String, AllocError> {
        // Not shared with keybench_stores: a function of `bench` that took `run` as a closure would need a `requires`.
        let line = lines::content(line);
        if lines::is_skipped(line) {
            return Ok(String::new(heap));
        }
        run(heap, line).or_else(|wrong| wrong.line(heap))
    }
}

/// The step of a line, carried out.
fn run(heap: Global, line: &[u8]) -> Result<String, Wrong>
    ensures text { Ran (asked (words line.now)) result }
{
    let step = parse(heap, line)?;
    Ok(step.carry_out(heap, HELP)?)
}
