//! The two sides.
ghost use Rattle.std.specs.Prelude.{◌≡◌};
ghost use Rattle.stream_sides.specs.Sides.{other};

/// One of the two sides of a node.
#[derive(Clone, Copy, Debug, PartialEq, Eq)]
pub enum Side {
    Left,
    Right,
}

impl Side {
    /// The side across.
    pub fn other(self) -> Side
        ensures { result ≡ other self }
    {
        match self {
            Side::Left => Side::Right,
            Side::Right => Side::Left,
        }
    }
}
