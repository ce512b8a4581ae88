//! What a step prints.

ghost use Rattle.std.specs.Prelude.{IfOk, string_bytes};
ghost use Rattle.bench.specs.Asked.{meant};
ghost use Rattle.bench.specs.Replied.{Replied};

use crate::step::Step;
use explain::{Verdict, explanation, judge};
use lines::hex;
use std::alloc::{AllocError, Global};

const WORK_SIZE: usize = 64;

// `meant` stands in each contract over a step, as an enum cannot have a model.
impl Step {
    /// What the step prints, where `help` is what help prints.
    pub fn carry_out(&self, heap: Global, help: &str) -> Result<String, AllocError>
        ensures text { IfOk result (λ s. Replied help.now (meant self.now) (string_bytes s)) }
    {
        let mut work = [0u8; WORK_SIZE];
        match self {
            Step::Digest(message) => hex::line(heap, "digest", &sha256::digest(message)),
            Step::Hmac { key, message } => {
                let mac = sha256::hmac(key, message, &[], &mut work).unwrap();
                hex::line(heap, "hmac", &mac)
            }
            Step::Tag { token, sub, params } => {
                let tag = sha256::tag(token, *sub, params, &mut work).unwrap();
                hex::line(heap, "tag", &tag)
            }
            Step::Read(message) => Verdict(judge(message)).to_string(heap),
            Step::Explain(message) => explanation(heap, message),
            Step::Help => String::from_str(heap, help),
        }
    }
}
