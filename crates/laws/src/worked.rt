//! Worked examples.
ghost use Rattle.laws.specs.Worked.{Worked};

/// The worked examples hold. A call does nothing: the contract is what counts.
pub fn worked_examples()
    ensures { Worked }
{}
