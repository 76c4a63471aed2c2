//! The call of loading.
ghost use Rattle.std.specs.Prelude.{◌≡◌, ◌≤◌, ◌^◌, ◌⊎◌, ℕ, List, [], length, Err, None, AllPairs, IfOk, IfErr};
ghost use Rattle.doc_model.specs.declared.document.Document.{Document};
ghost use Rattle.doc_model.specs.declared.report.Report.{Report};
ghost use Rattle.load_model.specs.Names.{places_of_bad_names, resolved};
ghost use Rattle.markup_nodes.specs.declared.tree.Tree.{Tree};
ghost use Rattle.load_model.specs.declared.offence.TreeOffenceKind.TheVariants as kind;
ghost use Rattle.load_model.specs.Offences as model;
ghost use Rattle.load_model.specs.Offences.{least, offences_at};
ghost use Rattle.expanded_names.specs.Places.{first_place};
ghost use Rattle.doc_load.specs.Loads.{HasOffence, IsFaultIn, IsLoadedUnlessMemory, IsOffenceUnlessMemory, Loads};
ghost use Rattle.doc_load.specs.Outcomes.{IsOrdered, IsSpelled, first_in, outcome_of};
ghost use Rattle.doc_load.specs.Parts.{answer_of};
ghost use Rattle.doc_load.specs.declared.offence.LoadFault.TheVariants.{NoMemory};
ghost use Rattle.doc_load.specs.declared.offence.Offence.{Offence};

use crate::offence::{LoadFault, markup_fault, tree_offence};
use crate::outcome::{Outcome, root_outcome};
use doc_model::{Document, Report};
use expanded_names::{Resolved, resolve};
use first_faults::FirstFault;
use load_model::TreeOffenceKind;
use markup_tree::{Tree, read_tree};
use nested_sections::sections_are_nested;
use std::alloc::{AllocError, Global};
use text_places::{declarations_rise, paragraphs_are_apart};
use tree_places::{bad_names_rise, resolved_trees_are_in_order, spelled_trees_are_in_order};

/// Loads a file of at most 2^28 bytes: the document, and what is left out of it, or the first offence.
pub fn load(alloc: Global, bytes: &[u8]) -> Result<(Document, Report), LoadFault>
    requires { length bytes.now ≤ 2 ^ 28 }
    // What is loaded is the document of the tree that the bytes spell, which has no offence, with its report.
    ensures loaded { IfOk result (λ one. Loads bytes.now one.0 one.1) }
    // An offence is the first one.
    ensures offence { IfErr result (IsFaultIn bytes.now) }
    // What spells a tree without an offence is loaded, unless memory runs out.
    ensures only { (doc : Document) (report : Report) → Loads bytes.now doc report → IsLoadedUnlessMemory doc report result }
    // The first offence is told, unless memory runs out.
    ensures told { (offence : Offence) → HasOffence bytes.now offence → IsOffenceUnlessMemory offence result }
{
    match read_tree(alloc, bytes) {
        Ok(tree) => load_tree(alloc, tree),
        Err(fault) => Err(markup_fault(fault)),
    }
}

// Loads a tree.
fn load_tree(alloc: Global, tree: Tree) -> Result<(Document, Report), LoadFault>
    requires { IsSpelled tree }
    ensures { (result ≡ answer_of (outcome_of (resolved tree.root) (model.first_offence tree.root))) ⊎ (result ≡ Err NoMemory) }
{
    match tree_outcome(alloc, tree) {
        Ok(outcome) => answer(outcome),
        Err(_fault) => Err(LoadFault::NoMemory),
    }
}

// The answer that an outcome is.
fn answer(outcome: Outcome) -> Result<(Document, Report), LoadFault>
    ensures { result ≡ answer_of outcome }
{
    match outcome {
        Outcome::Loaded(doc, report) => Ok((doc, report)),
        Outcome::Refused(offence) => Err(LoadFault::Offence(tree_offence(offence))),
    }
}

// What a tree comes to.
fn tree_outcome(alloc: Global, tree: Tree) -> Result<Outcome, AllocError>
    requires { IsSpelled tree }
    ensures { IfOk result (λ outcome. outcome ≡ outcome_of (resolved tree.root) (first_in tree.root)) }
{
    places_are_ordered();
    let Resolved { root, bad_names } = resolve(alloc, tree.root)?;
    root_outcome(alloc, first_names(bad_names), &root)
}

// What holds of places in a tree that bytes spell. It does nothing.
fn places_are_ordered()
    ensures names { (tree : Tree) → IsSpelled tree → AllPairs (λ place other. place ≤ other) (places_of_bad_names tree.root []) }
    ensures ordered { (tree : Tree) → IsSpelled tree → IsOrdered (resolved tree.root) }
{
    spelled_trees_are_in_order();
    resolved_trees_are_in_order();
    bad_names_rise();
    declarations_rise();
    paragraphs_are_apart();
    sections_are_nested();
}

// The first of the offences of bad names.
fn first_names(place: Option<u32>) -> FirstFault
    ensures { (places : List ℕ) → place ≡ first_place None places → AllPairs (λ place other. place ≤ other) places → result ≡ least (offences_at kind.Names places) }
{
    let mut first = FirstFault::none();
    first.add_rising(TreeOffenceKind::Names, place);
    first
}
