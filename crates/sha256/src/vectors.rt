//! The published vectors as theorems.

ghost use Rattle.sha256.specs.Vectors.{Vectors};

/// The published vectors follow from the definitions.
pub fn vectors_hold()
    ensures vectors { Vectors }
{}
