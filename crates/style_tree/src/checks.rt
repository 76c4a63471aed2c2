//! Why a style is not defined, removed or changed.
ghost use Rattle.std.specs.Prelude.{◌≡◌, ◌↔◌, ℕ, IsTrue, [], IfOk};
ghost use Rattle.style_model.specs.Lineage.{StandsAt, would_loop};
ghost use Rattle.style_tree.specs.Refusals.{missing, dangling, nameless, taken, looping, define_refusal, reparent_refusal, Answers};

use crate::lineage::Lineage;
use crate::refusal::StyleRefusal;
use crate::style_tree::StyleTree;
use doc_model::{Family, Name, Style};

// Whether a name is empty, which stands for none.
fn is_none(name: &Name) -> bool
    ensures { IsTrue result ↔ (name.now ≡ []) }
{
    name.is_same(&Name::none(name.allocator()))
}

// A new style wants a name.
fn check_name(name: &Name) -> Result<(), StyleRefusal>
    ensures { Answers result (nameless name.now) }
{
    if is_none(name) {
        return Err(StyleRefusal::NoStyle(name.copy()?));
    }
    Ok(())
}

impl StyleTree {
    // A style that a name refers to has to be there, where the name isn't empty.
    fn check_reference(&self, family: Family, name: &Name) -> Result<(), StyleRefusal>
        ensures { Answers result (dangling self.now.styles family name.now) }
    {
        if is_none(name) {
            return Ok(());
        }
        self.place_there(family, name)?;
        Ok(())
    }

    // A style may not be there.
    fn check_new(&self, family: Family, name: &Name) -> Result<(), StyleRefusal>
        ensures { Answers result (taken self.now.styles family name.now) }
    {
        match self.style_named(family, name) {
            Some(_) => Err(StyleRefusal::Taken(name.copy()?)),
            None => Ok(()),
        }
    }

    // A style may not be its own ancestor.
    fn check_parent(&self, family: Family, name: &Name, parent: &Name) -> Result<(), StyleRefusal>
        ensures { Answers result (looping self.now.styles family name.now parent.now) }
    {
        if self.would_loop(family, name, parent) {
            return Err(StyleRefusal::StyleLoop(name.copy()?));
        }
        Ok(())
    }

    // Whether a style that has this parent would be its own ancestor.
    fn would_loop(&self, family: Family, name: &Name, parent: &Name) -> bool
        ensures { result ≡ would_loop self.now.styles family name.now parent.now }
    {
        if *parent == *name {
            return true;
        }
        'ancestors: for ancestor in Lineage::new(self, family, parent) {
            if ancestor.parent == *name {
                return true;
            }
        }
        false
    }

    /// Tells why the style can't be defined, if it can't.
    pub(crate) fn check_definition(&self, style: &Style) -> Result<(), StyleRefusal>
        ensures { Answers result (define_refusal self.now.styles style.now) }
    {
        check_name(&style.name)?;
        self.check_reference(style.family, &style.parent)?;
        self.check_reference(style.family, &style.next)?;
        self.check_new(style.family, &style.name)?;
        self.check_parent(style.family, &style.name, &style.parent)
    }

    /// Tells why the style can't have the parent, if it can't.
    pub(crate) fn check_reparent(
        &self,
        family: Family,
        name: &Name,
        parent: &Name,
    ) -> Result<(), StyleRefusal>
        ensures { Answers result (reparent_refusal self.now.styles family name.now parent.now) }
    {
        self.place_there(family, name)?;
        self.check_reference(family, parent)?;
        self.check_parent(family, name, parent)
    }

    /// The place of a style that has to be there.
    #[tactic(auto, using(crate::proofs::Noted::named_none, crate::proofs::Noted::named_there, crate::proofs::Noted::named_alone))]
    pub(crate) fn place_there(&self, family: Family, name: &Name) -> Result<usize, StyleRefusal>
        ensures refused { Answers result (missing self.now.styles family name.now) }
        ensures place { IfOk result (λ place. StandsAt self.now.styles family name.now place) }
        ensures only { IfOk result (λ place. (other : ℕ) → StandsAt self.now.styles family name.now other → other ≡ place) }
    {
        match self.index.find(family, name) {
            Some(place) => Ok(place),
            None => Err(StyleRefusal::NoStyle(name.copy()?)),
        }
    }
}
