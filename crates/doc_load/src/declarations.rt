//! The names that a text declares.
ghost use Rattle.std.specs.Prelude.{◌≡◌, ◌++◌, ◌∷◌, [], List, map, filter, IfOk, OnOk};
ghost use Rattle.std.specs.List.{flat_map};
ghost use Rattle.load_model.specs.declared.element.Element.{Element};
ghost use Rattle.load_model.specs.Left.{Left, all_of, both};
ghost use Rattle.load_model.specs.Loaded.{met_of, read_text};
ghost use Rattle.declared_names.specs.Kept.{stated_of};
ghost use Rattle.element_parts.specs.Shown.{shown};
ghost use Rattle.met_read.specs.Read as met;
ghost use Rattle.met_read.specs.Read.{outlined};
ghost use Rattle.read_blocks.specs.Shown.{shown_declarations};
ghost use Rattle.doc_load.specs.Outcomes.{IsOrdered};
ghost use Rattle.doc_load.specs.Parts.{DeclarationsAre, KindIs, is_of_kind, told};

use declared_names::{DeclaredNames, Stated, declaration_beyond, declared_left, declared_names};
use doc_model::{List, Name};
use element_parts::LeftOut;
use met_read::Met;
use read_blocks::{Declared, ReadDeclarations};
use std::alloc::{AllocError, Global};

/// The declared names.
#[derive(Drop)]
pub(crate) struct Declarations {
    pub(crate) variables: List<Name>,
    pub(crate) sequences: List<Name>,
    /// The place of the first name with which there are too many.
    pub(crate) beyond: Option<u32>,
    /// What is left out in declarations.
    pub(crate) left: LeftOut,
}

/// The declared names of one kind, and what is left out in those that are stated.
#[derive(Drop)]
pub(crate) struct OfKind<'a> {
    pub(crate) names: DeclaredNames<'a>,
    pub(crate) left: LeftOut,
}

/// The names that a text declares or uses.
pub(crate) fn read_declarations(
    alloc: Global,
    declarations: &[ReadDeclarations],
    things: &[Met<'_>],
) -> Result<Declarations, AllocError>
    ensures { IfOk result (λ all. (root : Element) → declarations.now ≡ map shown_declarations (read_text root).declarations → map met.met_of things.now ≡ map outlined (met_of root) → IsOrdered root → DeclarationsAre all root) }
{
    let variables = of_kind(alloc, false, declarations, things)?;
    let sequences = of_kind(alloc, true, declarations, things)?;
    let beyond = declaration_beyond(alloc, &variables.names, &sequences.names)?;
    let left = LeftOut::nothing()
        .both(left_between(declarations))
        .both(variables.left)
        .both(sequences.left);
    Ok(Declarations {
        variables: variables.names.names(alloc)?,
        sequences: sequences.names.names(alloc)?,
        beyond,
        left,
    })
}

// The names of one kind.
fn of_kind<'a>(
    alloc: Global,
    sequences: bool,
    declarations: &'a [ReadDeclarations],
    things: &[Met<'a>],
) -> Result<OfKind<'a>, AllocError>
    ensures { IfOk result (λ kind. (root : Element) → declarations.now ≡ map shown_declarations (read_text root).declarations → map met.met_of things.now ≡ map outlined (met_of root) → KindIs sequences root kind) }
{
    let stated = stated_among(alloc, sequences, declarations)?;
    let all = stated.as_slice();
    let names = declared_names(alloc, sequences, all, things)?;
    let left = declared_left(all.len(), names.kept.as_slice());
    Ok(OfKind { names, left })
}

// The declarations of one kind, as they are stated.
fn stated_among<'a>(
    alloc: Global,
    sequences: bool,
    declarations: &'a [ReadDeclarations],
) -> Result<Vec<Stated<'a>>, AllocError>
    ensures { IfOk result (λ stated. map stated_of stated.items ≡ map told (flat_map (λ part. part.declared) (filter (is_of_kind sequences) declarations.now))) }
{
    let mut stated = Vec::new(alloc);
    'declarations: for part in declarations {
        push_kind(&mut stated, sequences, part)?;
    }
    Ok(stated)
}

// Adds the declarations of an element, if they are of this kind.
fn push_kind<'a>(
    stated: &mut Vec<Stated<'a>>,
    sequences: bool,
    part: &'a ReadDeclarations,
) -> Result<(), AllocError>
    ensures { OnOk result (map stated_of stated.new.items ≡ map stated_of stated.old.items ++ map told (flat_map (λ part. part.declared) (filter (is_of_kind sequences) (part.entry.now ∷ [])))) }
{
    if !is_of_kind(sequences, part) {
        return Ok(());
    }
    push_stated(stated, part.declared.get())
}

// Whether declarations are of a kind.
fn is_of_kind(sequences: bool, part: &ReadDeclarations) -> bool
    ensures { result ≡ is_of_kind sequences part.now }
{
    if sequences {
        return part.sequences;
    }
    !part.sequences
}

// Adds declarations as they are stated.
fn push_stated<'a>(stated: &mut Vec<Stated<'a>>, declared: &'a [Declared]) -> Result<(), AllocError>
    ensures { OnOk result (map stated_of stated.new.items ≡ map stated_of stated.old.items ++ map told declared.now) }
{
    'declared: for one in declared {
        stated.push(Stated {
            place: one.place,
            name: one.name.get(),
            left: one.left,
        })?;
    }
    Ok(())
}

// What is left out between declarations.
fn left_between(declarations: &[ReadDeclarations]) -> LeftOut
    ensures { (lefts : List Left) → map (λ part. part.left) declarations.now ≡ map shown lefts → result ≡ shown (all_of lefts) }
{
    let mut total = LeftOut::nothing();
    'declarations: for part in declarations {
        total = with_left(total, part);
    }
    total
}

// What is left out between those of one more element.
fn with_left(total: LeftOut, part: &ReadDeclarations) -> LeftOut
    ensures { (some last : Left) → total ≡ shown some → part.now.left ≡ shown last → result ≡ shown (both some last) }
{
    total.both(part.left)
}
