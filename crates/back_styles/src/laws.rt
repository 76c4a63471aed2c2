//! What styles are read as.

ghost use Rattle.doc_model.specs.declared.style.Props.{Props};
ghost use Rattle.doc_model.specs.declared.style.Style.{Style};
ghost use Rattle.doc_model.specs.Valid.{StatesNoTabs};
ghost use Rattle.load_model.specs.Styles.{Names};
ghost use Rattle.back_styles.specs.Styles.{AreInRange, IsReadableStyle, IsStyleBack, IsDefaultBack};

/// A style of any family is read as itself, with its properties, and nothing is left out.
pub fn styles_are_read_back()
    ensures { (names : Names) (style : Style) → IsReadableStyle names style → IsStyleBack names style }
{}

/// The default style of paragraphs is read as itself, where it states something, and nothing is left out.
pub fn default_styles_are_read_back()
    ensures { (defaults : Props) → StatesNoTabs defaults → AreInRange defaults → IsDefaultBack defaults }
{}
