//! A law of keys. Its function does nothing.

ghost use Rattle.std.specs.Prelude.{◌≡◌, ℕ, List};
ghost use Rattle.doc_model.specs.declared.style.Family.TheVariants as family;
ghost use Rattle.doc_model.specs.declared.style.Style.{Style};
ghost use Rattle.style_model.specs.Effective.{stated};
ghost use Rattle.key_parts.specs.Shows.{stated_display};
ghost use Rattle.key_parts.specs.Displays.{displays_of};

/// Among the text styles that state whether they are shown each name is found with what is stated along the style of
/// that name and its ancestors.
pub fn displays_say_what_styles_state()
    ensures { (styles : List Style) (name : List ℕ) → stated_display (displays_of styles) name ≡ (stated styles family.Text name).display }
{}
