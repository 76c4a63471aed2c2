//! What the places of elements are to a text.

ghost use Rattle.std.specs.Prelude.{◌≡◌, false, true};
ghost use Rattle.std.specs.List.{AllByRecursion as Each};
ghost use Rattle.back_fields.specs.Given.{all_kept};
ghost use Rattle.back_kept.specs.Kept.{IsKept};
ghost use Rattle.back_names.specs.Named.{placeless};
ghost use Rattle.back_paragraphs.specs.Paragraphs.{outside};
ghost use Rattle.back_text_places.specs.Bare.{bare_blocks};
ghost use Rattle.back_text_places.specs.Standing.{standing};
ghost use Rattle.load_model.specs.declared.element.Element.{Element};
ghost use Rattle.load_model.specs.Blocks.{Known, gives_of};
ghost use Rattle.load_model.specs.Met.{met_in};

/// A text in which all is in place is read without the places of its elements as it is read with them, but for the numbers of paragraphs
/// and the places of declarations, if everything that is met in it is kept.
pub fn texts_need_no_places()
    ensures { (known : Known) (text : Element) → (standing text).inside true ≡ true → Each (IsKept known.kept) (met_in text)
        → (gives_of (all_kept known.names) (placeless text)).inside (outside false) ≡ bare_blocks false ((gives_of known text).inside (outside false)) }
{}
