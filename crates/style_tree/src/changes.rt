//! Changes of a tree of styles.
ghost use Rattle.std.specs.Prelude.{◌≡◌, ◌≤◌, ◌<◌, Some, None, length, insert, slice_get, slice_set, IfOk, OnOk, OnErr};
ghost use Rattle.doc_model.specs.declared.style.Style.{Style};
ghost use Rattle.style_model.specs.Lineage.{style_named};
ghost use Rattle.style_model.specs.Changes.{common_end, with_style, without_style, with_change, with_parent, with_style_prop};
ghost use Rattle.style_tree.specs.Refusals.{missing, define_refusal, reparent_refusal, Answers};

use crate::parts::{own, put_in, replace_in, take_out};
use crate::props::with_prop;
use crate::refusal::StyleRefusal;
use crate::style_tree::StyleTree;
use doc_model::{Family, Name, Prop, Style};
use std::alloc::AllocError;
use std::sync::Arc;

impl StyleTree {
    /// Defines a style, which is not automatic and comes behind the last one that isn't. It is refused where it has no
    /// name, where its parent or its next style is missing in its family, where its name is taken there, and where it
    /// would be its own ancestor; the first of these is told.
    pub fn define(&mut self, style: Style) -> Result<(), StyleRefusal>
        ensures refused { Answers result (define_refusal self.old.styles style) }
        ensures ok { OnOk result (self.new ≡ record { defaults = self.old.defaults; styles = with_style style self.old.styles }) }
        ensures err { OnErr result (self.new ≡ self.old) }
    {
        self.check_definition(&style)?;
        let at = self.common_end();
        let mut style = style;
        style.auto = false;
        self.put(at, style)?;
        Ok(())
    }

    /// Puts a style in before a place of the list, counted from 0, or at the end.
    pub fn put(&mut self, at: usize, style: Style) -> Result<(), AllocError>
        requires in_range { at ≤ length self.old.styles }
        requires new { style_named self.old.styles style.family style.name ≡ None }
        ensures ok { OnOk result (self.new ≡ record { defaults = self.old.defaults; styles = insert self.old.styles at style }) }
        ensures err { OnErr result (self.new ≡ self.old) }
    {
        own(self.alloc, &mut self.index)?;
        match Arc::get_mut(&mut self.index) {
            None => Err(AllocError),
            Some(index) => put_in(self.alloc, &mut self.styles, index, at, style),
        }
    }

    /// Takes a style out of the list and answers it. It is refused where it is missing. Other styles may still name it.
    pub fn remove(&mut self, family: Family, name: &Name) -> Result<Style, StyleRefusal>
        ensures refused { Answers result (missing self.old.styles family name.now) }
        ensures style { IfOk result (λ style. style_named self.old.styles family name.now ≡ Some style) }
        ensures ok { OnOk result (self.new ≡ record { defaults = self.old.defaults; styles = without_style family name.now self.old.styles }) }
        ensures err { OnErr result (self.new ≡ self.old) }
    {
        let at = self.place_there(family, name)?;
        let style = self.get(at).copy()?;
        own(self.alloc, &mut self.index)?;
        match Arc::get_mut(&mut self.index) {
            None => Err(StyleRefusal::NoMemory),
            Some(index) => {
                take_out(&mut self.styles, index, at, &style)?;
                Ok(style)
            }
        }
    }

    /// Gives a style another parent, or none, which is the empty name. It is refused where the style or the parent is
    /// missing in the family, and where the style would be its own ancestor; the first of these is told.
    pub fn reparent(
        &mut self,
        family: Family,
        name: &Name,
        parent: &Name,
    ) -> Result<(), StyleRefusal>
        ensures refused { Answers result (reparent_refusal self.old.styles family name.now parent.now) }
        ensures ok { OnOk result (self.new ≡ record { defaults = self.old.defaults; styles = with_change family name.now (with_parent parent.now) self.old.styles }) }
        ensures err { OnErr result (self.new ≡ self.old) }
    {
        self.check_reparent(family, name, parent)?;
        let at = self.place_there(family, name)?;
        let mut style = self.get(at).copy()?;
        style.parent = parent.copy()?;
        self.replace(at, style)?;
        Ok(())
    }

    /// Sets one property of a style as given, which may be unstated. It is refused where the style is missing.
    pub fn set_prop(&mut self, family: Family, name: &Name, prop: &Prop) -> Result<(), StyleRefusal>
        ensures refused { Answers result (missing self.old.styles family name.now) }
        ensures ok { OnOk result (self.new ≡ record { defaults = self.old.defaults; styles = with_change family name.now (with_style_prop prop.now) self.old.styles }) }
        ensures err { OnErr result (self.new ≡ self.old) }
    {
        let at = self.place_there(family, name)?;
        let mut style = self.get(at).copy()?;
        style.props = with_prop(style.props, prop)?;
        self.replace(at, style)?;
        Ok(())
    }

    // Puts a style in the place of the one of its family and name.
    fn replace(&mut self, at: usize, style: Style) -> Result<(), AllocError>
        requires same { (was : Style) → slice_get self.old.styles at ≡ Some was → (style.family ≡ was.family) × (style.name ≡ was.name) }
        requires in_range { at < length self.old.styles }
        ensures ok { OnOk result (self.new ≡ record { defaults = self.old.defaults; styles = slice_set self.old.styles at style }) }
        ensures err { OnErr result (self.new ≡ self.old) }
    {
        replace_in(self.alloc, &mut self.styles, at, style)?;
        Ok(())
    }

    // How many styles there are up to the last that isn't automatic.
    #[tactic(auto, using(crate::proofs::CommonEnd::end_auto, crate::proofs::CommonEnd::end_common, std::proofs::lemmas::List::take_all))]
    fn common_end(&self) -> usize
        ensures same { result ≡ common_end self.now.styles }
        ensures within { result ≤ length self.now.styles }
    {
        let mut at = self.len();
        'styles: while at > 0 {
            if !self.get(at - 1).auto {
                return at;
            }
            at -= 1;
        }
        0
    }
}
