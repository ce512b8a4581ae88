//! Worked examples, as a theorem that the checker computes.

ghost use Rattle.cbor.specs.Examples.{Examples};

/// The worked examples follow from the definitions.
pub fn examples_hold()
    ensures examples { Examples }
{}
