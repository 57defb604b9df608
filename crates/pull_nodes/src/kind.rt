//! What a stream's elements are.
ghost use Rattle.std.specs.Prelude.{◌≡◌};
ghost use Rattle.std.specs.Result.{result_ok};
ghost use Rattle.pull_nodes.specs.Kinds.{joined_kind, load_kind, merged_kind, paired_kind};

use chunk_core::Load;

/// The kind of a stream's elements.
#[derive(Clone, Copy, Debug, PartialEq, Eq)]
pub enum Kind {
    Bytes,
    Lines,
    Rows,
    /// The stream gives nothing, so that it fits every step and join.
    Any,
}

/// A step gets a kind that it doesn't take.
#[derive(Clone, Copy, Debug, PartialEq, Eq)]
pub struct KindFault;

impl Kind {
    pub(crate) fn of_load(load: &Load) -> Kind
        ensures { result ≡ load_kind load.now }
    {
        match load {
            Load::Bytes(_) => Kind::Bytes,
            Load::Lines(_) => Kind::Lines,
            Load::Rows(_) => Kind::Rows,
        }
    }

    /// The one kind of two sides.
    pub(crate) fn join(self, other: Kind) -> Result<Kind, KindFault>
        ensures { result_ok result ≡ joined_kind self other }
    {
        match (self, other) {
            (Kind::Any, kind) => Ok(kind),
            (kind, Kind::Any) => Ok(kind),
            (Kind::Bytes, Kind::Bytes) => Ok(Kind::Bytes),
            (Kind::Lines, Kind::Lines) => Ok(Kind::Lines),
            (Kind::Rows, Kind::Rows) => Ok(Kind::Rows),
            _ => Err(KindFault),
        }
    }

    /// The kind of pairs of such elements: lines become rows.
    pub(crate) fn paired(self) -> Result<Kind, KindFault>
        ensures { result_ok result ≡ paired_kind self }
    {
        match self {
            Kind::Lines | Kind::Any => Ok(Kind::Rows),
            Kind::Bytes | Kind::Rows => Err(KindFault),
        }
    }

    /// The kind of a merge of such elements: bytes aren't merged.
    pub(crate) fn merged(self) -> Result<Kind, KindFault>
        ensures { result_ok result ≡ merged_kind self }
    {
        match self {
            Kind::Lines | Kind::Rows | Kind::Any => Ok(self),
            Kind::Bytes => Err(KindFault),
        }
    }
}
