//! How two sides become one.

/// What is made of a stream's two sides.
#[derive(Clone, Copy, Debug, PartialEq, Eq)]
pub enum Join {
    /// The first side, and the second behind it.
    Append,
    /// Lines of both sides in pairs, as rows of two fields, until one side ends.
    Zip,
    /// The lines or rows of both sides, in any order between the two.
    Merge,
}
