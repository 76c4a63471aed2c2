//! What is stated along a style and its ancestors, and what holds of it.
ghost use Rattle.std.specs.Prelude.{◌≡◌, IfOk, option_copied};
ghost use Rattle.doc_model.specs.declared.style.Family.TheVariants as family;
ghost use Rattle.style_model.specs.Effective.{stated, stated_master, effective};

use crate::lineage::Lineage;
use crate::props::{filled, where_unstated};
use crate::style_tree::StyleTree;
use doc_model::{Family, Name, Props};
use std::alloc::AllocError;

/// What a style and its ancestors state: of each property and of the master the first value along them.
#[derive(Debug, Drop, PartialEq, Eq)]
pub struct Stated {
    /// The properties.
    pub props: Props,
    /// The master; the empty name may be stated.
    pub master: Option<Name>,
}

impl StyleTree {
    /// The effective properties of a paragraph style: of each property the first value that is stated along the style,
    /// its ancestors, the default style of paragraphs and what holds where nothing is stated. Each is `Some`. A name
    /// without a style has what the default style has.
    #[tactic(auto, using(crate::proofs::Along::along_three))]
    pub fn effective(&self, style: &Name) -> Result<Props, AllocError>
        ensures { IfOk result (λ props. props ≡ effective self.now.defaults self.now.styles style.now) }
    {
        let props = self.props_along(Family::Paragraph, style)?;
        let props = filled(props, self.defaults())?;
        let table = where_unstated(self.allocator());
        filled(props, &table)
    }

    /// What is stated along a style and its ancestors; nothing where there is no such style.
    pub fn stated(&self, family: Family, style: &Name) -> Result<Stated, AllocError>
        ensures props { IfOk result (λ found. found.props ≡ stated self.now.styles family style.now) }
        ensures master { IfOk result (λ found. found.master ≡ stated_master self.now.styles family style.now) }
    {
        let props = self.props_along(family, style)?;
        let master = match self.master_along(family, style) {
            Some(master) => Some(master.copy()?),
            None => None,
        };
        Ok(Stated { props, master })
    }

    #[tactic(auto, using(crate::proofs::Along::along_unstated, crate::proofs::Along::along_two, crate::proofs::Along::along_one))]
    fn props_along(&self, family: Family, style: &Name) -> Result<Props, AllocError>
        ensures { IfOk result (λ props. props ≡ stated self.now.styles family style.now) }
    {
        let mut props = Props::unstated();
        'ancestors: for ancestor in Lineage::new(self, family, style) {
            props = filled(props, &ancestor.props)?;
        }
        Ok(props)
    }

    fn master_along<'a>(&'a self, family: Family, style: &'a Name) -> Option<&'a Name>
        ensures { option_copied result ≡ stated_master self.now.styles family style.now }
    {
        'ancestors: for ancestor in Lineage::new(self, family, style) {
            if let Some(master) = &ancestor.master {
                return Some(master);
            }
        }
        None
    }
}
