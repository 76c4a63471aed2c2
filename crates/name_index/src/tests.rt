//! The index with ample memory.

use crate::{NameIndex, NameKind};
use doc_model::{Name, ParId};
use std::alloc::{AllocError, Global};

/// The kinds, each with the paragraph that the one name leads to.
const PLACES: &[(NameKind, u32)] = &[
    (NameKind::Bookmark, 3),
    (NameKind::Section, 1),
    (NameKind::Reference, 4),
    (NameKind::Note, 2),
];

/// Whether a name of each kind is found where it was put last, and is gone when it is taken out, and no other then.
fn each_kind_is_apart(alloc: Global, name: &Name) -> Result<bool, AllocError> {
    let mut index = NameIndex::new(alloc);
    for (kind, par) in PLACES {
        index.add(*kind, name, ParId(9))?;
        index.add(*kind, name, ParId(*par))?;
    }
    Ok(all_are_found(&index, name) && one_is_dropped(index, name))
}

fn all_are_found(index: &NameIndex, name: &Name) -> bool {
    for (kind, par) in PLACES {
        if index.find(*kind, name) != Some(ParId(*par)) {
            return false;
        }
    }
    true
}

fn one_is_dropped(mut index: NameIndex, name: &Name) -> bool {
    index.drop_name(NameKind::Section, name);
    if index.find(NameKind::Section, name).is_some() {
        return false;
    }
    index.find(NameKind::Note, name) == Some(ParId(2))
}

#[test]
fn names_of_each_kind_are_apart(rt: HostRuntime) -> Result<(), AllocError> {
    let name = Name::from_list(String::from_str(rt.alloc(), "k")?);
    assert!(rt; each_kind_is_apart(rt.alloc(), &name)?);
    Ok(())
}
