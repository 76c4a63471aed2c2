//! What a style states.

ghost use Rattle.std.specs.Prelude.{◌≡◌, ◌||◌, is_some};
ghost use Rattle.spelling_model.specs.Spelling.{is_there};
ghost use Rattle.written_model.specs.Styles.{paragraph_attributes, text_attributes, property_elements};

use doc_model::Props;

/// Whether a margin is stated.
fn states_margin(props: &Props) -> bool
    ensures { result ≡ (is_some props.now.margin_left || is_some props.now.margin_right || is_some props.now.margin_top || is_some props.now.margin_bottom) }
{
    props.margin_left.is_some()
        || props.margin_right.is_some()
        || props.margin_top.is_some()
        || props.margin_bottom.is_some()
}

/// Whether it is stated how lines stand, or what ends before or after a paragraph.
fn states_line(props: &Props) -> bool
    ensures { result ≡ (is_some props.now.indent || is_some props.now.align || is_some props.now.break_before || is_some props.now.break_after) }
{
    props.indent.is_some()
        || props.align.is_some()
        || props.break_before.is_some()
        || props.break_after.is_some()
}

/// Whether it is stated how a paragraph is kept together.
fn states_keeping(props: &Props) -> bool
    ensures { result ≡ (is_some props.now.keep_next || is_some props.now.keep_together || is_some props.now.widows || is_some props.now.orphans) }
{
    props.keep_next.is_some()
        || props.keep_together.is_some()
        || props.widows.is_some()
        || props.orphans.is_some()
}

/// Whether an attribute of paragraphs is stated.
pub(crate) fn states_paragraph(props: &Props) -> bool
    ensures { result ≡ is_there (paragraph_attributes props.now) }
{
    states_margin(props)
        || states_line(props)
        || states_keeping(props)
        || props.page_number.is_some()
}

/// Whether an attribute of text is stated.
pub(crate) fn states_text(props: &Props) -> bool
    ensures { result ≡ is_there (text_attributes props.now) }
{
    props.display.is_some()
}

/// Whether properties have an element.
pub fn states_something(props: &Props) -> bool
    ensures { result ≡ is_there (property_elements props.now) }
{
    states_paragraph(props) || states_text(props)
}
