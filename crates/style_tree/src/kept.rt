//! A style that several lists have in common.
ghost use Rattle.std.specs.Prelude.{◌≡◌, IfOk};

use doc_model::Style;
use std::alloc::{AllocError, Global};
use std::marker::Model;
use std::sync::Arc;

/// A style behind an `Arc`, so that a clone of it is cheap. Contracts see the style.
#[derive(Drop)]
pub struct KeptStyle {
    style: Arc<Style>,
}

impl Model for KeptStyle {
    ghost use Rattle.std.specs.Arc.{arc_value};
    ghost use Rattle.doc_model.specs.declared.style.Style.{Style};

    ghost Value = { Style };

    ghost view = { λ kept. arc_value kept.style };
}

impl KeptStyle {
    pub fn new(alloc: Global, style: Style) -> Result<KeptStyle, AllocError>
        ensures { IfOk result (λ kept. kept ≡ style) }
    {
        let style = Arc::new(alloc, style)?;
        Ok(KeptStyle { style })
    }

    pub fn get(&self) -> &Style
        ensures { result.now ≡ self.now }
    {
        &self.style
    }
}

/// A clone has the same style.
impl Clone for KeptStyle {
    ghost is_clone = { λ kept copy. copy ≡ kept };

    fn clone(&self) -> Result<KeptStyle, AllocError> {
        let style = Arc::try_clone(&self.style)?;
        Ok(KeptStyle { style })
    }
}
