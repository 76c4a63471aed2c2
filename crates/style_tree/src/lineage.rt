//! A style with its ancestors.
ghost use Rattle.std.specs.Prelude.{◌≡◌, length};
ghost use Rattle.std.specs.Iterator.{YieldsFirstRef, item_count};
ghost use Rattle.style_model.specs.Lineage.{lineage};

use crate::style_tree::StyleTree;
use doc_model::{Family, Name, Style};
use std::marker::Model;

/// Goes over a style and its ancestors, the nearest first, as many as there are styles at most. It is seen as the list
/// of those that are left.
#[derive(Drop)]
pub struct Lineage<'a> {
    tree: &'a StyleTree,
    family: Family,
    next: &'a Name,
    most: usize,
}

impl<'a> Model for Lineage<'a> {
    ghost use Rattle.std.specs.Prelude.{List};
    ghost use Rattle.doc_model.specs.declared.style.Style.{Style};
    ghost use Rattle.style_model.specs.Lineage.{lineage_of};

    ghost Value = { List Style };

    ghost view = { λ it. lineage_of it.most it.tree.now.styles it.family it.next.now };
}

impl<'a> Lineage<'a> {
    pub fn new(tree: &'a StyleTree, family: Family, name: &'a Name) -> Lineage<'a>
        ensures { result ≡ lineage tree.now.styles family name.now }
    {
        Lineage {
            tree,
            family,
            next: name,
            most: tree.len(),
        }
    }
}

impl<'a> Iterator for Lineage<'a> {
    type Item = &'a Style;

    ghost next_gives = { YieldsFirstRef (λ rest. rest) };

    ghost remaining = { item_count (λ rest. rest) };

    fn next(&mut self) -> Option<&'a Style> {
        if self.most == 0 {
            return None;
        }
        let style = self.tree.style_named(self.family, self.next)?;
        self.most -= 1;
        self.next = &style.parent;
        Some(style)
    }
}
