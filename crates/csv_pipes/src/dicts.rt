//! The dictionaries of a run's tables.
ghost use Rattle.std.specs.Prelude.{◌≡◌, ◌++◌, ◌∷◌, ℕ, List, [], IfOk, OnOk, OnErr, length, map as each, take};
ghost use Rattle.std.specs.Arc.{arc_value};
ghost use Rattle.std.specs.FinMap as map;
ghost use Rattle.csv_pipes.specs.Dictionaries.{values_of};

use crate::dict::Dict;
use std::alloc::{AllocError, Global};
use std::marker::Model;
use std::sync::Arc;

/// A dictionary for each table, by the table's number. Contracts see their list.
#[derive(Drop)]
pub struct Dicts {
    tables: Vec<Arc<Dict>>,
}

impl Model for Dicts {
    ghost use Rattle.std.specs.Prelude.{List, map};
    ghost use Rattle.std.specs.Arc.{arc_value};
    ghost use Rattle.std.specs.FinMap.{code};
    ghost use Rattle.std.specs.Coded.{coded_list, coded_ℕ};
    ghost use Rattle.csv_pipes.specs.Dictionaries.{Dictionary};

    ghost Value = { List Dictionary };

    ghost coded = { coded_list (code (coded_list coded_ℕ) (coded_list coded_ℕ)) };

    ghost view = { λ a. map arc_value a.tables.items };
}

impl Dicts {
    /// No tables.
    pub fn new(alloc: Global) -> Dicts
        ensures { result ≡ [] }
    {
        Dicts {
            tables: Vec::new(alloc),
        }
    }

    /// The dictionary of the next table.
    pub fn push(&mut self, alloc: Global, dict: Dict) -> Result<(), AllocError>
        ensures ok { OnOk result (self.new ≡ self.old ++ dict ∷ []) }
        ensures err { OnErr result (self.new ≡ self.old) }
    {
        let dict = Arc::new(alloc, dict)?;
        self.tables.push(dict)?;
        Ok(())
    }

    /// How many tables.
    pub fn len(&self) -> usize
        ensures { result ≡ length self.now }
    {
        self.tables.len()
    }

    /// The first so many, or all where there are fewer.
    fn first(&self, count: u32) -> &[Arc<Dict>]
        ensures { each arc_value result.now ≡ take count self.now }
    {
        let all = self.tables.as_slice();
        if (count as usize) < all.len() {
            &all[..count as usize]
        } else {
            all
        }
    }

    /// The dictionaries of the first so many tables once more, without a copy.
    pub fn share_first(&self, alloc: Global, count: u32) -> Result<Dicts, AllocError>
        ensures { IfOk result (λ dicts. dicts ≡ take count self.now) }
    {
        let first = self.first(count);
        let mut tables = Vec::with_capacity(alloc, first.len())?;
        for table in first {
            tables.push(Arc::try_clone(table)?)?;
        }
        Ok(Dicts { tables })
    }

    /// The dictionary of the table, shared, or one without a value where there is no such table.
    pub fn dict(&self, alloc: Global, table: u32) -> Result<Arc<Dict>, AllocError>
        ensures { IfOk result (λ dict. (key : List ℕ) → map.get (arc_value dict) key ≡ values_of self.now table key) }
    {
        match self.tables.get(table as usize) {
            Some(dict) => Arc::try_clone(dict),
            None => Ok(Arc::new(alloc, Dict::new(alloc))?),
        }
    }
}
