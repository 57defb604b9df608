//! A dictionary may go to another thread.
use crate::{Dict, Dicts};

fn is_send<T: Send>(_value: &T) {}

fn is_sync<T: Sync>(_value: &T) {}

/// A dictionary may go to another thread, and threads may share it.
pub fn dictionaries_cross(dictionary: &Dict) {
    is_send(dictionary);
    is_sync(dictionary)
}

/// The dictionaries of a run may go to another thread.
pub fn tables_cross(tables: &Dicts) {
    is_send(tables)
}
