//! The values of a table by their keys.
ghost use Rattle.std.specs.Prelude.{◌≡◌, ℕ, List, OnOk};
ghost use Rattle.std.specs.FinMap as map;
ghost use Rattle.std.specs.Option.{option_copied};
ghost use Rattle.csv_pipes.specs.Dictionaries.{value_or};

use chunk_core::Line;
use std::alloc::{AllocError, Global};
use std::collections::HashMap;
use std::marker::Model;

/// A value for each key of a table. Contracts see the map from keys to values.
#[derive(Drop)]
pub struct Dict {
    values: HashMap<Vec<u8>, Line>,
}

impl Model for Dict {
    ghost use Rattle.std.specs.Prelude.{ℕ, List};
    ghost use Rattle.std.specs.FinMap as map;
    ghost use Rattle.std.specs.Coded.{coded_list, coded_ℕ};
    ghost use Rattle.csv_pipes.specs.Dictionaries.{Dictionary, dictionary_of};

    ghost Value = { Dictionary };

    ghost coded = { map.code (coded_list coded_ℕ) (coded_list coded_ℕ) };

    ghost view = { λ a. dictionary_of a.values.entries };
}

impl Dict {
    /// No key has a value.
    pub fn new(alloc: Global) -> Dict
        ensures { result ≡ map.empty }
    {
        Dict {
            values: HashMap::new(alloc),
        }
    }

    /// The value for the key, where there is one.
    pub fn get(&self, key: &[u8]) -> Option<&Line>
        ensures { option_copied result ≡ map.get self.now key.now }
    {
        self.values.get(key)
    }

    /// Gives the key its value, where it has none.
    pub(crate) fn add(&mut self, alloc: Global, key: &[u8], value: &[u8]) -> Result<(), AllocError>
        ensures { OnOk result ((other : List ℕ) → map.get self.new other ≡ value_or (map.get self.old other) key.now value.now other) }
    {
        if self.get(key).is_some() {
            return Ok(());
        }
        let key = Vec::from_slice(alloc, key)?;
        let value = Line::copy_of(alloc, value)?;
        let Ok(_) = self.values.insert(key, value) else {
            return Err(AllocError);
        };
        Ok(())
    }
}
