//! What is met as a text is read.
ghost use Rattle.std.specs.Prelude.{◌≡◌, ◌++◌, ◌∷◌, [], map, true, chars, IfOk, OnOk};
ghost use Rattle.std.specs.Option.{option_map};
ghost use Rattle.load_model.specs.declared.names.Key.TheVariants as key;
ghost use Rattle.load_model.specs.declared.names.Tag.TheVariants as tag;
ghost use Rattle.load_model.specs.declared.element.Element.{out-Element};
ghost use Rattle.load_model.specs.Left.{is_same_tag};
ghost use Rattle.load_model.specs.Met as model;
ghost use Rattle.load_model.specs.Met.{Where};
ghost use Rattle.load_model.specs.Values as value;
ghost use Rattle.load_model.specs.Values.{stated};
ghost use Rattle.met_read.specs.Read.{kind_of, met_of, outlined};
ghost use Rattle.met_read.specs.Walk.{Stands, HasMore, HasMoreAt, given_in, held, inside, name_in, is_passed};

use crate::things::{MarkKind, Met, MetMark, MetName, MetSection};
use load_model::{Attribute, Element, Key, Tag};
use read_values::{name, value_of};
use std::alloc::{AllocError, Global};

/// Where things are met.
#[derive(Debug, Clone, Copy)]
pub(crate) struct Here {
    /// The text: the place of its note, or 0 for the body.
    text: u32,
    /// Whether it is in a list.
    in_list: bool,
    /// The place of the innermost section.
    section: Option<u32>,
}

/// What is read where an element stands.
#[derive(Debug, Clone, Copy)]
pub(crate) enum Part {
    Blocks,
    Entries,
    Content,
}

/// What is met in the text of a body, in the order of the file. Of the sections around one its innermost is kept.
pub fn met_in(alloc: Global, text: &Element) -> Result<Vec<Met<'_>>, AllocError>
    ensures { IfOk result (λ met. map met_of met.items ≡ map outlined (model.met_in text.now)) }
{
    let mut met = Vec::new(alloc);
    let here = Here {
        text: 0,
        in_list: false,
        section: None,
    };
    push_inside(&mut met, Part::Blocks, here, text)?;
    Ok(met)
}

// Adds what is met in an element that stands where these are read.
#[cycle(push_element)]
fn push_element<'a>(
    met: &mut Vec<Met<'a>>,
    part: Part,
    here: Here,
    element: &'a Element,
) -> Result<(), AllocError>
    ensures { OnOk result (HasMoreAt here met.old.items met.new.items (given_in part element.now)) }
{
    match part {
        Part::Blocks => push_block(met, here, element),
        Part::Entries => push_entry(met, here, element),
        Part::Content => push_content(met, here, element),
    }
}

// Adds what is met in the elements that an element holds.
#[cycle(push_element)]
#[tactic(auto, using(crate::proofs::SizeLemmas::smaller))]
fn push_inside<'a>(
    met: &mut Vec<Met<'a>>,
    part: Part,
    here: Here,
    element: &'a Element,
) -> Result<(), AllocError>
    ensures { OnOk result (HasMoreAt here met.old.items met.new.items (inside part element.now)) }
{
    for turn in element.nodes.turns() {
        push_element(met, part, here, &turn.elem)?;
    }
    Ok(())
}

// Adds what is met in an element where blocks are read.
#[cycle(push_element)]
fn push_block<'a>(
    met: &mut Vec<Met<'a>>,
    here: Here,
    element: &'a Element,
) -> Result<(), AllocError>
    ensures { OnOk result (HasMoreAt here met.old.items met.new.items (given_in Part.Blocks element.now)) }
{
    match element.tag {
        Tag::Paragraph | Tag::Heading => push_inside(met, Part::Content, here, element),
        Tag::List => push_inside(met, Part::Entries, here.in_a_list(), element),
        Tag::Section => push_section(met, here, element),
        Tag::Index => push_inside(met, Part::Blocks, here, element),
        Tag::Table => push(met, Met::Table(element.place)),
        _ => Ok(()),
    }
}

impl Here {
    // The same place in a list.
    fn in_a_list(self) -> Here
        ensures { (at : Where) → Stands self at → Stands result (record at { in_list = true }) }
    {
        Here {
            in_list: true,
            ..self
        }
    }

    // What is in a section of this place.
    fn in_section(self, place: u32) -> Here
        ensures { (at : Where) → Stands self at → Stands result (record at { sections = at.sections ++ place ∷ [] }) }
    {
        Here {
            section: Some(place),
            ..self
        }
    }

    // What is in a note of this place.
    fn in_note(place: u32) -> Here
        ensures { Stands result (model.in_note place) }
    {
        Here {
            text: place,
            in_list: false,
            section: None,
        }
    }

    // Whether sections are read here.
    fn reads_sections(self) -> bool
        ensures { (at : Where) → Stands self at → result ≡ model.reads_sections at }
    {
        self.text == 0 && !self.in_list
    }
}

// Adds what is met in an element where the entries of a list are read.
#[cycle(push_element)]
fn push_entry<'a>(
    met: &mut Vec<Met<'a>>,
    here: Here,
    element: &'a Element,
) -> Result<(), AllocError>
    ensures { OnOk result (HasMoreAt here met.old.items met.new.items (given_in Part.Entries element.now)) }
{
    match element.tag {
        Tag::ListItem | Tag::ListHeader => push_inside(met, Part::Blocks, here, element),
        _ => Ok(()),
    }
}

// Adds a section with what is met in it. One without a good name is passed, and so is one where sections aren't read.
#[cycle(push_element)]
fn push_section<'a>(
    met: &mut Vec<Met<'a>>,
    here: Here,
    element: &'a Element,
) -> Result<(), AllocError>
    ensures { OnOk result (HasMoreAt here met.old.items met.new.items (model.section_met (out-Element element.now).place (name_in key.TextName element.now) (held element.now))) }
{
    if !here.reads_sections() {
        return push_inside(met, Part::Blocks, here, element);
    }
    let Some(name) = own_name(Key::TextName, element.attributes.get()) else {
        return push_inside(met, Part::Blocks, here, element);
    };
    push(
        met,
        Met::Section(MetSection {
            place: element.place,
            name,
            within: here.section,
        }),
    )?;
    push_inside(met, Part::Blocks, here.in_section(element.place), element)
}

// Adds what is met in an element where the content of a paragraph is read.
#[cycle(push_element)]
fn push_content<'a>(
    met: &mut Vec<Met<'a>>,
    here: Here,
    element: &'a Element,
) -> Result<(), AllocError>
    ensures { OnOk result (HasMoreAt here met.old.items met.new.items (given_in Part.Content element.now)) }
{
    match element.tag {
        Tag::Note => push_note(met, here, element),
        Tag::Bookmark => push_mark(met, MarkKind::Whole, here, element),
        Tag::BookmarkStart => push_mark(met, MarkKind::Start, here, element),
        Tag::BookmarkEnd => push_mark(met, MarkKind::End, here, element),
        Tag::Sequence => push_sequence(met, element),
        Tag::VariableSet | Tag::VariableGet => push_variable(met, element),
        _ => {
            if is_passed(element.tag) {
                push_inside(met, Part::Content, here, element)
            } else {
                Ok(())
            }
        }
    }
}

// Adds a note with what is met in its first body. One in a note is dropped.
#[cycle(push_element)]
fn push_note<'a>(met: &mut Vec<Met<'a>>, here: Here, element: &'a Element) -> Result<(), AllocError>
    ensures { OnOk result (HasMoreAt here met.old.items met.new.items (model.note_met (out-Element element.now).place (name_in key.Id element.now) (held element.now))) }
{
    if here.text != 0 {
        return Ok(());
    }
    push_id(met, element)?;
    push_first_body(met, Here::in_note(element.place), element)
}

// Adds what is met in the first body of a note.
#[cycle(push_element)]
#[tactic(auto, using(crate::proofs::SizeLemmas::smaller))]
fn push_first_body<'a>(
    met: &mut Vec<Met<'a>>,
    here: Here,
    element: &'a Element,
) -> Result<(), AllocError>
    ensures { OnOk result (HasMoreAt here met.old.items met.new.items (λ at. model.each (λ one. one.inside) at (model.first_given tag.NoteBody (held element.now)))) }
{
    for turn in element.nodes.turns() {
        if is_body(turn.elem.tag) {
            return push_inside(met, Part::Blocks, here, &turn.elem);
        }
    }
    Ok(())
}

// Adds a note, if it has an id.
fn push_id<'a>(met: &mut Vec<Met<'a>>, element: &'a Element) -> Result<(), AllocError>
    ensures { OnOk result (HasMore met.old.items met.new.items (map model.Note (model.named_at (out-Element element.now).place (name_in key.Id element.now)))) }
{
    match own_name(Key::Id, element.attributes.get()) {
        Some(name) => push(
            met,
            Met::Note(MetName {
                place: element.place,
                name,
            }),
        ),
        None => Ok(()),
    }
}

// Adds a mark, if it has a name.
fn push_mark<'a>(
    met: &mut Vec<Met<'a>>,
    kind: MarkKind,
    here: Here,
    element: &'a Element,
) -> Result<(), AllocError>
    ensures { OnOk result (HasMoreAt here met.old.items met.new.items (model.mark_met (kind_of kind) (out-Element element.now).place (name_in key.TextName element.now))) }
{
    match own_name(Key::TextName, element.attributes.get()) {
        Some(name) => push(
            met,
            Met::Mark(MetMark {
                place: element.place,
                text: here.text,
                kind,
                name,
            }),
        ),
        None => Ok(()),
    }
}

// Adds a sequence field, if it has a name, with its reference name, if it has one.
fn push_sequence<'a>(met: &mut Vec<Met<'a>>, element: &'a Element) -> Result<(), AllocError>
    ensures { OnOk result (HasMore met.old.items met.new.items (model.sequence_met (out-Element element.now).place (name_in key.TextName element.now) (name_in key.ReferenceName element.now))) }
{
    let Some(sequence) = own_name(Key::TextName, element.attributes.get()) else {
        return Ok(());
    };
    let place = element.place;
    if let Some(name) = own_name(Key::ReferenceName, element.attributes.get()) {
        push(met, Met::Reference(MetName { place, name }))?;
    }
    push(
        met,
        Met::Sequence(MetName {
            place,
            name: sequence,
        }),
    )
}

// Adds a field of a variable, if it has a name.
fn push_variable<'a>(met: &mut Vec<Met<'a>>, element: &'a Element) -> Result<(), AllocError>
    ensures { OnOk result (HasMore met.old.items met.new.items (map model.Variable (model.named_at (out-Element element.now).place (name_in key.TextName element.now)))) }
{
    match own_name(Key::TextName, element.attributes.get()) {
        Some(name) => push(
            met,
            Met::Variable(MetName {
                place: element.place,
                name,
            }),
        ),
        None => Ok(()),
    }
}

// Adds what is met.
fn push<'a>(met: &mut Vec<Met<'a>>, one: Met<'a>) -> Result<(), AllocError>
    ensures { OnOk result (map met_of met.new.items ≡ map met_of met.old.items ++ met_of one.entry ∷ []) }
{
    met.push(one)?;
    Ok(())
}

// The name that an attribute states, if it states one.
fn own_name(wanted: Key, attributes: &[Attribute]) -> Option<&str>
    ensures { option_map (λ name. chars name.now) result ≡ stated wanted value.name attributes.now }
{
    name(value_of(wanted, attributes)?)
}

// Whether a tag is that of a note's body.
fn is_body(which: Tag) -> bool
    ensures { result ≡ is_same_tag which tag.NoteBody }
{
    matches!(which, Tag::NoteBody)
}

// Whether the content of a paragraph goes on in an element of a tag.
fn is_passed(tag: Tag) -> bool
    ensures { result ≡ is_passed tag }
{
    match tag {
        Tag::Spaces | Tag::Tab | Tag::LineBreak => false,
        Tag::Chapter | Tag::PageNumber | Tag::PageCount => false,
        Tag::BookmarkReference | Tag::SequenceReference | Tag::NoteReference => false,
        _ => !is_dropped(tag),
    }
}

// Whether an element of a tag is dropped in the content of a paragraph.
fn is_dropped(tag: Tag) -> bool
    ensures { result ≡ model.is_dropped tag }
{
    match tag {
        Tag::Document | Tag::CommonStyles | Tag::AutomaticStyles | Tag::MasterStyles => true,
        Tag::Body | Tag::Text | Tag::RubyText | Tag::Foreign => true,
        _ => false,
    }
}
