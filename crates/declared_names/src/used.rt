//! Names that are used.
ghost use Rattle.std.specs.Prelude.{◌≡◌, ◌++◌, ◌∷◌, [], List, ℕ, map, OnOk, IfOk};
ghost use Rattle.std.specs.Option.{option_map};
ghost use Rattle.load_model.specs.Met as model;
ghost use Rattle.met_read.specs.Read.{met_of, name_of};
ghost use Rattle.declared_names.specs.Used.{Uses, used_in, names_used};

use element_parts::NameSet;
use met_read::{Met, MetName};
use std::alloc::{AllocError, Global};

/// Of the names that sequence fields count by, or those of variables, the ones that aren't among these names, each at its
/// first use. The names are with them then.
pub(crate) fn first_used<'a>(
    alloc: Global,
    sequences: bool,
    names: &mut NameSet,
    met: &[Met<'a>],
) -> Result<Vec<MetName<'a>>, AllocError>
    ensures { IfOk result (λ used. Uses names.old (names_used sequences (map met_of met.now)) names.new used.items) }
{
    let mut used = Vec::new(alloc);
    'met: for one in met {
        add_met(alloc, sequences, names, &mut used, one)?;
    }
    Ok(used)
}

// Adds what is met, if it is a use of a name that isn't there yet.
fn add_met<'a>(
    alloc: Global,
    sequences: bool,
    names: &mut NameSet,
    used: &mut Vec<MetName<'a>>,
    met: &Met<'a>,
) -> Result<(), AllocError>
    ensures { OnOk result ((stated : List (List ℕ)) (before : List model.MetName) → Uses stated before names.old used.old.items → Uses stated (before ++ names_used sequences (met_of met.now ∷ [])) names.new used.new.items) }
{
    match used_name(sequences, met) {
        Some(one) => add(alloc, names, used, one),
        None => Ok(()),
    }
}

// Adds a use, where the name isn't there yet.
fn add<'a>(
    alloc: Global,
    names: &mut NameSet,
    used: &mut Vec<MetName<'a>>,
    one: MetName<'a>,
) -> Result<(), AllocError>
    ensures { OnOk result ((stated : List (List ℕ)) (before : List model.MetName) → Uses stated before names.old used.old.items → Uses stated (before ++ name_of one.entry ∷ []) names.new used.new.items) }
{
    if names.add(alloc, one.name)? {
        used.push(one)?;
    }
    Ok(())
}

// The field with its name, if it counts by a sequence, or is of a variable.
fn used_name<'a>(sequences: bool, one: &Met<'a>) -> Option<MetName<'a>>
    ensures { option_map name_of result ≡ used_in sequences (met_of one.now) }
{
    match (sequences, one) {
        (true, Met::Sequence(field)) => Some(*field),
        (false, Met::Variable(field)) => Some(*field),
        _ => None,
    }
}
