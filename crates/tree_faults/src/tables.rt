//! Tables.
ghost use Rattle.std.specs.Prelude.{◌≡◌, ◌++◌, ◌∷◌, [], List, map, filter_map, OnOk, IfOk};
ghost use Rattle.load_model.specs.Met as model;
ghost use Rattle.met_read.specs.Read.{met_of, outlined};
ghost use Rattle.tree_faults.specs.Tables.{table_in};

use met_read::Met;
use std::alloc::{AllocError, Global};

/// The places of the tables that are met where blocks are read.
pub fn table_places(alloc: Global, met: &[Met<'_>]) -> Result<Vec<u32>, AllocError>
    ensures { IfOk result (λ places. (all : List model.Met) → map met_of met.now ≡ map outlined all → places.items ≡ model.tables_met all) }
{
    let mut places = Vec::new(alloc);
    'met: for one in met {
        push_table(&mut places, one)?;
    }
    Ok(places)
}

// Adds the place of a table, if this is one.
fn push_table(places: &mut Vec<u32>, one: &Met<'_>) -> Result<(), AllocError>
    ensures { OnOk result (places.new.items ≡ places.old.items ++ filter_map table_in (met_of one.now ∷ [])) }
{
    match one {
        Met::Table(place) => {
            places.push(*place)?;
            Ok(())
        }
        _ => Ok(()),
    }
}
