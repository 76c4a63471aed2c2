//! What is left out of a file, and its report.
ghost use Rattle.std.specs.Prelude.{◌≡◌, ◌+◌, ◌-◌, length};
ghost use Rattle.std.specs.Option.{option_map};
ghost use Rattle.load_model.specs.Left.{all_but, children};
ghost use Rattle.load_model.specs.Loaded as loaded;
ghost use Rattle.load_model.specs.Loaded.{declarations_left, left_of, read_in_root, read_text, report_of, text_of};
ghost use Rattle.load_model.specs.Styles.{style_parts};
ghost use Rattle.element_parts.specs.Shown.{shown};
ghost use Rattle.doc_load.specs.Lefts.{attributes_left_in, body_left_in};
ghost use Rattle.doc_load.specs.Parts.{PartsAre, TextIs};

use crate::parts::ReadParts;
use crate::root::{body_in, text_in};
use crate::text::ReadText;
use doc_model::Report;
use element_parts::{LeftOut, attributes_out, first};
use load_model::{Element, Key, Tag};
use read_values::Reading;
use sheet_values::{children_left, part_count};

const ROOT_RULES: &[(Key, Reading)] = &[(Key::Mimetype, Reading::AnyText)];

const TEXT_RULES: &[(Key, Reading)] = &[(Key::Global, Reading::Truth)];

/// What is left out in the text of a root, where so much is in its blocks and so much in its declarations.
pub(crate) fn text_left(root: &Element, read: LeftOut, declarations: LeftOut) -> LeftOut
    ensures { read ≡ shown (read_text root.now).left → declarations ≡ shown (declarations_left root.now) → result ≡ shown (loaded.text_left root.now) }
{
    LeftOut::nothing()
        .both(text_attributes(root))
        .both(read)
        .both(declarations)
}

// The attributes of the text that are left out, if there is one.
fn text_attributes(root: &Element) -> LeftOut
    ensures { result ≡ shown (attributes_left_in (text_of root.now)) }
{
    attributes_in(text_in(root))
}

// The attributes of a text that are left out, if there is one.
fn attributes_in(text: Option<&Element>) -> LeftOut
    ensures { result ≡ shown (attributes_left_in (option_map (λ text. text.now) text.entry)) }
{
    match text {
        Some(text) => LeftOut::nothing().both(attributes_out(TEXT_RULES, text)),
        None => LeftOut::nothing(),
    }
}

// What is left out in the body, if there is one.
fn body_left(root: &Element) -> LeftOut
    ensures { result ≡ shown (loaded.body_left root.now) }
{
    left_in(body_in(root), part_count(text_in(root)))
}

// What is left out in a body of whose elements so many are read, if there is one.
fn left_in(body: Option<&Element>, read: usize) -> LeftOut
    ensures { result ≡ shown (body_left_in read (option_map (λ body. body.now) body.entry)) }
{
    match body {
        Some(body) => {
            let own = attributes_out(&[], body).both(children_left(read, body));
            LeftOut::nothing().both(own)
        }
        None => LeftOut::nothing(),
    }
}

// The elements of the root that aren't read, where so many style parts are.
fn root_elements(root: &Element, parts: usize) -> LeftOut
    ensures { parts ≡ length (style_parts root.now) → result ≡ shown (all_but (read_in_root root.now) (children root.now)) }
{
    LeftOut::elements(unread(
        root.nodes.len(),
        parts,
        part_count(first(Tag::MasterStyles, root)),
        part_count(body_in(root)),
    ))
}

// How many of so many elements aren't read.
fn unread(held: usize, parts: usize, masters: usize, bodies: usize) -> usize
    ensures { result ≡ held - (parts + masters + bodies) }
{
    held.saturating_sub(parts)
        .saturating_sub(masters)
        .saturating_sub(bodies)
}

// What is left out of a file.
fn left_out(root: &Element, parts: &ReadParts, text: &ReadText) -> LeftOut
    ensures { PartsAre parts.now root.now → TextIs text.now root.now → result ≡ shown (left_of root.now) }
{
    LeftOut::nothing()
        .both(attributes_out(ROOT_RULES, root))
        .both(root_elements(root, parts.count))
        .both(parts.values.left)
        .both(parts.masters.left)
        .both(body_left(root))
        .both(text.left)
}

/// The report of a file.
pub(crate) fn report(root: &Element, parts: &ReadParts, text: &ReadText) -> Report
    ensures { PartsAre parts.now root.now → TextIs text.now root.now → result ≡ report_of root.now }
{
    let left = left_out(root, parts, text);
    Report {
        elements: left.elements,
        attributes: left.attributes,
        sources: 0,
    }
}
