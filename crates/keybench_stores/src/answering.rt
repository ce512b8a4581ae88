//! What the bench answers to a line.

ghost use Rattle.std.specs.Prelude.{◌≡◌, ◌⊎◌, IfOk, string_bytes};
ghost use Rattle.lines.specs.Line.{content_of, is_skipped, words};
ghost use Rattle.steps.specs.Asked.{asked, meant};
ghost use Rattle.storebench.specs.State.{state_of};
ghost use Rattle.keybench_stores.specs.Replied.{Due, Moves, Printed, Replied, Runs, next, next_of};

use bench::{Bench, Wrong};
use std::alloc::{AllocError, Global};
use steps::{Step, StoreStep, parse};
use storebench::Held;

const HELP: &str = "\
digest HEX         SHA-256 of the bytes
hmac KEY HEX       HMAC-SHA-256 of the bytes under the key
tag TOKEN SUB HEX  the first 16 bytes of the HMAC under the token, of SUB and then the bytes
read HEX           the verdict on a message, and the place where it breaks
explain HEX        the items of a message up to where it breaks, then the line of read
blank KIND N       opens a store of N free slots; KIND is table or log
open KIND HEX      opens a store from its image
add PROTECT RP USER NAME DISPLAY CRED X Y
                   adds a record to the store that is open
remove I           takes out the record at place I
list               the records of the store that is open
image              its image
help               these lines
";

/// The bench of the steps and of the stores: it keeps the store that is open.
#[derive(Drop)]
pub struct Stores(pub Option<Held>);

impl Bench for Stores {
    ghost answers = { λ before line shown after. Printed (is_skipped (content_of line)) (state_of before.0) (asked (words (content_of line))) (state_of after.0) shown };

    ghost leaves = { λ before line after. (state_of after.0 ≡ state_of before.0) ⊎ (state_of after.0 ≡ next_of (state_of before.0) (asked (words (content_of line)))) };

    fn answer(&mut self, heap: Global, line: &[u8]) -> Result<String, AllocError> {
        answer_line(heap, &mut self.0, line)
    }
}

/// The text that answers a line of input: none where the line is skipped.
fn answer_line(heap: Global, held: &mut Option<Held>, input: &[u8]) -> Result<String, AllocError>
    ensures text { IfOk result (λ s. Printed (is_skipped (content_of input.now)) (state_of held.old) (asked (words (content_of input.now))) (state_of held.new) (string_bytes s)) }
    ensures state { (state_of held.new ≡ state_of held.old) ⊎ (state_of held.new ≡ next_of (state_of held.old) (asked (words (content_of input.now)))) }
{
    // Not shared with keybench: a function of `bench` that took `run` as a closure would need a `requires`.
    let line = lines::content(input);
    if lines::is_skipped(line) {
        return Ok(String::new(heap));
    }
    run(heap, held, line).or_else(|wrong| wrong.line(heap))
}

/// The step of a line, carried out.
fn run(heap: Global, held: &mut Option<Held>, line: &[u8]) -> Result<String, Wrong>
    ensures text { Runs (Due (state_of held.old) (asked (words line.now))) result }
    ensures state { Moves result (state_of held.old) (next_of (state_of held.old) (asked (words line.now))) (state_of held.new) }
{
    let step = parse(heap, line)?;
    carry_out(heap, held, step)
}

/// What a step answers.
fn carry_out(heap: Global, held: &mut Option<Held>, step: Step) -> Result<String, Wrong>
    ensures text { Runs (Replied (state_of held.old) (meant step)) result }
    ensures state { Moves result (state_of held.old) (next (state_of held.old) (meant step)) (state_of held.new) }
{
    match step {
        Step::Plain(step) => Ok(step.carry_out(heap, HELP)?),
        Step::Store(StoreStep::Blank { kind, slots }) => {
            Ok(storebench::blank(heap, held, kind, slots)?)
        }
        Step::Store(StoreStep::Open { kind, image }) => {
            Ok(storebench::open(heap, held, kind, image)?)
        }
        Step::Store(StoreStep::Add(parts)) => storebench::add(heap, held, &parts),
        Step::Store(StoreStep::Remove(place)) => storebench::remove(heap, held, place),
        Step::Store(StoreStep::List) => storebench::list(heap, held),
        Step::Store(StoreStep::Image) => storebench::image(heap, held),
    }
}
