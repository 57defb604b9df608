//! Seats whose desk threads may share, each with a handle of its own.
use crate::seat::{SharedSeat, TableRef};
use row_seat::RowSeat;
use std::alloc::AllocError;

/// A seat whose desk is a handle that can be shared: each thread acts at a handle of its own, with a
/// seat that was split off, and that seat is taken in at any other handle.
pub trait SharesDesk: RowSeat {
    ghost use Rattle.std.specs.Prelude.{◌≡◌, false, IfOk};
    ghost use Rattle.res_ledger.specs.declared.event.StreamNo.{StreamNo};
    ghost use Rattle.row_seat.specs.Views.{OthersFit};

    /// A further handle, which fits the same seats. Needs memory.
    fn share(desk: &Self::Desk) -> Result<Self::Desk, AllocError>
        ensures { IfOk result (λ e. (s : Self) → Self.fits s desk.now → Self.fits s e) };

    // A seat that was split off fits each handle that some seat fits, where both fit one.
    ghost agree: { (s o : Self) (d e : Self.Desk) → Self.fits s d → Self.fits s e → Self.fits o e → (Self.view o).main ≡ false → Self.fits o d };
    // What is done at a handle leaves it at its table: a seat that was split off, and fits the handle
    // behind a call, fitted it before.
    ghost stays: { (s o : Self) (k : StreamNo) (d e : Self.Desk) → Self.fits s d → OthersFit Self.view Self.fits k d e → (Self.view o).main ≡ false → Self.fits o e → Self.fits o d };
}

impl<P: Drop> SharesDesk for SharedSeat<P> {
    ghost use Rattle.row_shared.specs.Handles.{calls_stay, fits_other};

    fn share(desk: &TableRef<P>) -> Result<TableRef<P>, AllocError> {
        desk.share()
    }

    ghost agree = { λ s o d e. fits_other s o d e };

    ghost stays = { λ s o k d e. calls_stay s o k d e };
}
