//! The loop of a program that answers lines.

ghost use Rattle.std.specs.Prelude.{ℕ, List, IfOk, string_bytes, OnOk};
ghost use Rattle.bench.specs.Served.{Served};

use std::alloc::{AllocError, Global};
use std::io;
use std::io::{BufRead, Write};

/// What answers the lines of an input.
pub trait Bench {
    // What may be printed for a line, and what the bench is after it.
    ghost answers: { Self → List ℕ → List ℕ → Self → Type 0 };
    // What the bench may be after a line, whether memory was there for the text or not.
    ghost leaves: { Self → List ℕ → Self → Type 0 };

    /// The text that answers a line.
    fn answer(&mut self, heap: Global, line: &[u8]) -> Result<String, AllocError>
        ensures text { IfOk result (λ s. answers self.old line.now (string_bytes s) self.new) }
        ensures leaves { leaves self.old line.now self.new };
}

/// Answers the lines of the input, one after the other, up to its end.
pub fn serve<B: Bench, R: BufRead, W: Write>(
    heap: Global,
    bench: &mut B,
    input: &mut R,
    output: &mut W,
) -> io::Result<()>
    ensures served { OnOk result (Served B.answers bench.old bench.new (R.remaining input.old) (R.remaining input.new) (W.contents output.old) (W.contents output.new)) }
{
    // The turns are counted: nothing says that an input ends, so no other loop would be shown to.
    for _turn in 0..u64::MAX {
        let mut line = Vec::new(heap);
        if input.read_until(b'\n', &mut line)? == 0 {
            break;
        }
        let text = bench.answer(heap, &line)?;
        output.write_all(text.as_bytes())?;
        // Whoever asks may wait for this answer before the next line.
        output.flush()?;
    }
    Ok(())
}
