//! What the contract says of the source of a description.
ghost use Rattle.headline_laws.specs.Whole.{DescriptionsAreReadWhole};

/// A description is read to its end, or to one byte more than it may have.
pub fn descriptions_are_read_whole()
    ensures { DescriptionsAreReadWhole }
{}
