//! Why a description is refused.
ghost use Rattle.std.specs.Prelude.{◌≡◌};
ghost use Rattle.pipeline_desc.specs.Reading.{refusal_of};
ghost use Rattle.pipeline_desc.specs.Refusals.{number_of_kind};

use std::alloc::AllocError;

/// What is wrong with a description.
#[derive(Clone, Copy, Debug, PartialEq, Eq)]
pub enum RefusalKind {
    /// The text isn't a TOML document.
    NotToml,
    /// A key that its table doesn't have.
    UnknownKey,
    /// A value of another type, or none where one is required.
    WrongType,
    /// A value out of its limits, or more values than may stand there.
    OutOfRange,
    /// A step of an unknown name, without its argument, or with one that it doesn't take.
    UnknownStep,
    /// A step gets a kind that it doesn't take.
    KindClash,
    /// A step names a table that isn't there.
    UnknownTable,
    /// A stream is to run until a stream that isn't there, or until itself.
    BadUntil,
    /// More than 1,048,576 bytes.
    TooLong,
    /// Bytes that aren't UTF-8.
    NotUtf8,
}

impl RefusalKind {
    /// Its number in messages, from 1 to 10.
    pub fn number(self) -> u8
        ensures { result ≡ number_of_kind self }
    {
        match self {
            RefusalKind::NotToml => 1,
            RefusalKind::UnknownKey => 2,
            RefusalKind::WrongType => 3,
            RefusalKind::OutOfRange => 4,
            RefusalKind::UnknownStep => 5,
            RefusalKind::KindClash => 6,
            RefusalKind::UnknownTable => 7,
            RefusalKind::BadUntil => 8,
            RefusalKind::TooLong => 9,
            RefusalKind::NotUtf8 => 10,
        }
    }
}

/// What is wrong, and where: the number of the stream, and of the step in it, where it stands in one.
#[derive(Clone, Copy, Debug, PartialEq, Eq)]
pub struct Refusal {
    pub kind: RefusalKind,
    pub stream: Option<u32>,
    pub step: Option<u32>,
}

/// Why there is no plan.
#[derive(Clone, Copy, Debug, PartialEq, Eq)]
pub enum Refused {
    /// Memory was wanting.
    Memory,
    /// The description is refused.
    Desc(Refusal),
}

impl From<AllocError> for Refused {
    ghost use Rattle.std.specs.Prelude.{◌≡◌};
    ghost use Rattle.pipeline_desc.specs.declared.refusal.Refused.TheVariants.{Memory};

    ghost from_gives = { λ _ e. e ≡ Memory };

    fn from(_: AllocError) -> Refused {
        Refused::Memory
    }
}

/// Where something stands in a description.
#[derive(Clone, Copy)]
pub(crate) enum Position {
    /// In no stream.
    Nowhere,
    /// In the stream of a number.
    InStream(u32),
    /// In a stream's step, by the numbers of both.
    AtStep(u32, u32),
}

/// The refusal of what stands there.
pub(crate) fn refuse(kind: RefusalKind, position: Position) -> Refused
    ensures { result ≡ Refused.Desc (refusal_of kind position) }
{
    let (stream, step) = match position {
        Position::Nowhere => (None, None),
        Position::InStream(stream) => (Some(stream), None),
        Position::AtStep(stream, step) => (Some(stream), Some(step)),
    };
    Refused::Desc(Refusal { kind, stream, step })
}
