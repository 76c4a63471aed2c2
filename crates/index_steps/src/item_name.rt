//! The names that items have of their own.

ghost use Rattle.std.specs.Prelude.{◌≡◌, ◌∷◌, [], if◌then◌else◌, MatchOption};
ghost use Rattle.doc_model.specs.Parts.{mark_name};
ghost use Rattle.doc_model.specs.Valid.{refname_of};
ghost use Rattle.name_index.specs.declared.names.NameKind.{NameKind};
ghost use Rattle.name_index.specs.Names.{is_same_kind};
ghost use Rattle.names_change.specs.ItemNames.{item_names};

use doc_model::{Field, Item, Mark, Name, What};
use name_index::NameKind;

/// The name of an item with its kind, if it is a mark, a note or a sequence field. It takes no memory.
pub(crate) fn name_of(item: &Item) -> Option<(NameKind, &Name)>
    ensures { MatchOption result ((kind : NameKind) → item_names kind item.now ≡ []) (λ own. (kind : NameKind) → item_names kind item.now ≡ (if is_same_kind own.0 kind then own.1.now ∷ [] else [])) }
{
    match &item.what {
        What::Mark(mark) => Some((NameKind::Bookmark, name_of_mark(mark.get()))),
        What::Field(field) => match name_of_field(field.get()) {
            Some(name) => Some((NameKind::Reference, name)),
            None => None,
        },
        What::Note(note) => Some((NameKind::Note, &note.get().id)),
        _ => None,
    }
}

// The name of a mark.
fn name_of_mark(mark: &Mark) -> &Name
    ensures { result.now ≡ mark_name mark.now }
{
    match mark {
        Mark::Point(name) => name,
        Mark::Start(name) => name,
        Mark::End(name) => name,
    }
}

// The reference name of a field, if it is a sequence field.
fn name_of_field(field: &Field) -> Option<&Name>
    ensures { MatchOption result (refname_of field.now ≡ []) (λ name. refname_of field.now ≡ name.now ∷ []) }
{
    match field {
        Field::Sequence { refname, .. } => Some(refname),
        _ => None,
    }
}
