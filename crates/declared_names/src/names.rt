//! The names that are declared.
ghost use Rattle.std.specs.Prelude.{◌≡◌, ◌++◌, List, map, chars, IfOk, OnOk};
ghost use Rattle.load_model.specs.Blocks as blocks;
ghost use Rattle.load_model.specs.Met as model;
ghost use Rattle.met_read.specs.Read.{met_of, outlined};
ghost use Rattle.declared_names.specs.Kept.{AreStated};
ghost use Rattle.declared_names.specs.Names.{IsDeclared};

use crate::stated::{Stated, first_stated};
use crate::used::first_used;
use doc_model::{List, Name};
use met_read::{Met, MetName};
use std::alloc::{AllocError, Global};

/// The names of one kind that are declared.
#[derive(Drop)]
pub struct DeclaredNames<'a> {
    /// The declarations that are kept: the first of each name.
    pub kept: Vec<Stated<'a>>,
    /// The first uses of the names that aren't declared.
    pub used: Vec<MetName<'a>>,
}

/// The names of sequences, or of variables, that are declared, where these declarations of the kind are stated.
pub fn declared_names<'a>(
    alloc: Global,
    sequences: bool,
    stated: &[Stated<'a>],
    met: &[Met<'a>],
) -> Result<DeclaredNames<'a>, AllocError>
    ensures { IfOk result (λ one. (declarations : List blocks.Declared) (things : List model.Met) → AreStated stated.now declarations → map met_of met.now ≡ map outlined things → IsDeclared sequences declarations things one) }
{
    let kept = first_stated(alloc, stated)?;
    let mut names = kept.names;
    let used = first_used(alloc, sequences, &mut names, met)?;
    Ok(DeclaredNames {
        kept: kept.kept,
        used,
    })
}

impl<'a> DeclaredNames<'a> {
    /// The names: those that are declared, and then those that are used without a declaration.
    pub fn names(&self, alloc: Global) -> Result<List<Name>, AllocError>
        ensures { IfOk result (λ names. names ≡ map (λ one. chars one.name.now) self.now.kept.items ++ map (λ one. chars one.name.now) self.now.used.items) }
    {
        let mut names = List::new(alloc);
        'kept: for one in self.kept.as_slice() {
            names.push(name_from(alloc, one.name)?)?;
        }
        'used: for one in self.used.as_slice() {
            names.push(name_from(alloc, one.name)?)?;
        }
        Ok(names)
    }
}

// A text as a name.
fn name_from(alloc: Global, text: &str) -> Result<Name, AllocError>
    ensures { IfOk result (λ name. name ≡ chars text.now) }
{
    Ok(Name::from_list(String::from_str(alloc, text)?))
}
