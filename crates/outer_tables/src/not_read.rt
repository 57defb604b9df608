//! Why the tables weren't read.
use chunk_core::Code;
use csv_pipes::TableRefused;
use std::alloc::AllocError;

/// Why the tables weren't read.
#[derive(Clone, Copy, Debug, PartialEq, Eq)]
pub enum NotRead {
    /// A table could not be opened or read, or what it holds is refused.
    Fault(Code),
    /// Memory was wanting.
    Memory,
}

impl From<AllocError> for NotRead {
    ghost use Rattle.std.specs.Prelude.{◌≡◌};
    ghost use Rattle.outer_tables.specs.declared.not_read.NotRead.TheVariants as why;

    ghost from_gives = { λ _ e. e ≡ why.Memory };

    fn from(_: AllocError) -> NotRead {
        NotRead::Memory
    }
}

impl From<TableRefused> for NotRead {
    ghost use Rattle.std.specs.Prelude.{◌≡◌};
    ghost use Rattle.outer_tables.specs.Causes.{as_not_read};

    ghost from_gives = { λ r e. e ≡ as_not_read r };

    fn from(refused: TableRefused) -> NotRead {
        match refused {
            TableRefused::Memory => NotRead::Memory,
            TableRefused::Data(code) => NotRead::Fault(code),
        }
    }
}
