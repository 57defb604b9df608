//! The room of a tree, made before its first call.
ghost use Rattle.std.specs.Prelude.{◌≡◌, ◌≤◌, [], vec_capacity, IfOk};

use crate::branch::{AcquiredRow, Branch, Spent};
use std::alloc::{AllocError, Global};

/// Room for scopes and rows. Each row that a tree acquires uses one, and so does each row of
/// another stream that ends in it.
#[derive(Drop)]
pub struct Room<P> {
    pub(crate) branches: Vec<Branch>,
    pub(crate) acquisitions: Vec<AcquiredRow>,
    pub(crate) shelf: Vec<Spent<P>>,
    pub(crate) scopes: u32,
    pub(crate) rows: u32,
    ghost one: { 1 ≤ scopes },
    ghost nothing: { (branches.items ≡ []) × (acquisitions.items ≡ []) × (shelf.items ≡ []) },
    ghost enough: { (scopes ≤ vec_capacity branches) × (rows ≤ vec_capacity acquisitions) × (rows ≤ vec_capacity shelf) },
}

impl<P: Drop> Room<P> {
    ghost use Rattle.scope_tree.specs.Visible.{row_room, scope_room};

    /// Needs memory: no later call of the tree does, but the making of leases and seats.
    pub fn new(alloc: Global, scopes: u32, rows: u32) -> Result<Room<P>, AllocError>
        requires { 1 ≤ scopes }
        ensures scopes { IfOk result (λ room. scope_room room ≡ scopes) }
        ensures rows { IfOk result (λ room. row_room room ≡ rows) }
    {
        let branches = Vec::with_capacity(alloc, scopes as usize)?;
        let acquisitions = Vec::with_capacity(alloc, rows as usize)?;
        let shelf = Vec::with_capacity(alloc, rows as usize)?;
        Ok(Room {
            branches,
            acquisitions,
            shelf,
            scopes,
            rows,
        })
    }
}
