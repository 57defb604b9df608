//! Looking up rows in what a tree keeps.
ghost use Rattle.std.specs.Prelude.{◌≡◌, ℕ};
ghost use Rattle.scope_tree.specs.Kept.{acquisition_pairs};
ghost use Rattle.scope_tree.specs.Released.{said};
ghost use Rattle.scope_tree.specs.Standings.{found};

use crate::branch::{AcquiredRow, Spent};

/// Whether the row ended well, if it ended here.
pub fn outcome<P>(shelf: &[Spent<P>], row: u32) -> Option<bool>
    ensures { result ≡ found row (said shelf.now) }
{
    'each: for spent in shelf {
        if spent.row == row {
            return Some(spent.ok);
        }
    }
    None
}

/// The scope in which the row was acquired, if it was.
pub fn scope_of(acquisitions: &[AcquiredRow], row: u32) -> Option<u32>
    ensures { result ≡ found row (acquisition_pairs acquisitions.now) }
{
    'each: for one in acquisitions {
        if one.row == row {
            return Some(one.scope);
        }
    }
    None
}
