//! The paragraphs of a header.
ghost use Rattle.std.specs.Prelude.{◌≡◌, ◌++◌, ◌∷◌, [], List, filter, map, take, OnOk, IfOk};
ghost use Rattle.load_model.specs.declared.element.Element.{Element};
ghost use Rattle.load_model.specs.Headers as header;
ghost use Rattle.load_model.specs.Offences.{too_long};
ghost use Rattle.load_model.specs.Styles as styles;
ghost use Rattle.sheet_names.specs.Known.{Knows};
ghost use Rattle.head_read.specs.Heads.{ParagraphsAre};

use doc_model::{HeadPar, List};
use element_parts::{LeftOut, is};
use head_content::read_head_paragraph;
use load_model::{Element, Tag};
use markup_nodes::Turn;
use sheet_names::Names;
use std::alloc::{AllocError, Global};

/// The most paragraphs of a header that are read.
const MOST_PARAGRAPHS: usize = 16;

/// The most items of a paragraph.
const MOST_ITEMS: usize = 32768;

/// Paragraphs of headers, with what is left out.
#[derive(Debug, Drop)]
pub(crate) struct Heads {
    /// The paragraphs.
    pub(crate) pars: List<HeadPar>,
    /// What is left out.
    pub(crate) left: LeftOut,
    /// The places of those that have too many items.
    pub(crate) too_long: Vec<u32>,
}

impl Heads {
    /// None. It takes no memory.
    pub(crate) fn none(alloc: Global) -> Heads
        ensures { (names : styles.Names) → ParagraphsAre result names [] }
    {
        Heads {
            pars: List::new(alloc),
            left: LeftOut::nothing(),
            too_long: Vec::new(alloc),
        }
    }
}

/// The elements of a header that are its paragraphs: of those among elements with the characters behind them the first
/// sixteen.
pub(crate) fn first_paragraphs(
    alloc: Global,
    turns: &[Turn<Element>],
) -> Result<Vec<&Element>, AllocError>
    ensures { IfOk result (λ found. map (λ one. one.now) found.items ≡ take 16 (filter header.is_paragraph (map (λ turn. turn.elem) turns.now))) }
{
    let mut found = Vec::new(alloc);
    'turns: for turn in turns {
        keep_paragraph(&mut found, &turn.elem)?;
    }
    Ok(found)
}

// Keeps one more element, where it is a paragraph and isn't behind the first sixteen.
fn keep_paragraph<'a>(found: &mut Vec<&'a Element>, element: &'a Element) -> Result<(), AllocError>
    ensures { OnOk result ((before : List Element) → map (λ one. one.now) found.old.items ≡ take 16 (filter header.is_paragraph before) → map (λ one. one.now) found.new.items ≡ take 16 (filter header.is_paragraph (before ++ element.now ∷ []))) }
{
    if !is_paragraph(element) {
        return Ok(());
    }
    if found.len() >= MOST_PARAGRAPHS {
        return Ok(());
    }
    found.push(element)?;
    Ok(())
}

// Whether an element is a paragraph of a header.
fn is_paragraph(element: &Element) -> bool
    ensures { result ≡ header.is_paragraph element.now }
{
    is(Tag::Paragraph, element) || is(Tag::Heading, element)
}

/// The paragraphs that elements are, where these names can be referred to.
pub(crate) fn read_paragraphs(
    alloc: Global,
    names: &Names,
    elements: &[&Element],
) -> Result<Heads, AllocError>
    ensures { IfOk result (λ read. (known : styles.Names) → Knows names.now known → ParagraphsAre read known (map (λ one. one.now) elements.now)) }
{
    let mut read = Heads::none(alloc);
    'elements: for element in elements {
        read = with_paragraph(alloc, names, read, element)?;
    }
    Ok(read)
}

// One more paragraph.
fn with_paragraph(
    alloc: Global,
    names: &Names,
    read: Heads,
    element: &Element,
) -> Result<Heads, AllocError>
    ensures { IfOk result (λ more. (known : styles.Names) → Knows names.now known → (before : List Element) → ParagraphsAre read known before → ParagraphsAre more known (before ++ element.now ∷ [])) }
{
    let Heads {
        mut pars,
        left,
        mut too_long,
    } = read;
    let head = read_head_paragraph(alloc, names, element)?;
    push_long(&mut too_long, element.place, head.paragraph.items.len())?;
    pars.push(head.paragraph)?;
    Ok(Heads {
        pars,
        left: left.both(head.left),
        too_long,
    })
}

// Adds the place of a paragraph with so many items, if they are too many.
fn push_long(long: &mut Vec<u32>, place: u32, items: usize) -> Result<(), AllocError>
    ensures { OnOk result (long.new.items ≡ long.old.items ++ too_long (record { place = place; items = items } ∷ [])) }
{
    if items > MOST_ITEMS {
        long.push(place)?;
    }
    Ok(())
}
