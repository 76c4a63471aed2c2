//! Answers of calls in a row, a change of a shared tree, and a long chain of ancestors.

use crate::{StyleRefusal, StyleTree};
use doc_model::{Align, Family, Length, Name, Prop, Props, Style};
use std::alloc::{AllocError, Global};
use std::test::Fail;

/// A call on a tree; the second name is the parent.
#[derive(Clone, Copy)]
enum Call {
    Define,
    Remove,
    Reparent,
    Unset,
}

/// What a call answers, without names.
#[derive(Clone, Copy, PartialEq, Eq)]
enum Answer {
    Done,
    NoStyle,
    Taken,
    StyleLoop,
}

const ROWS: &[(Call, Family, &str, &str, Answer)] = &[
    (Call::Define, Family::Paragraph, "A", "", Answer::Done),
    (Call::Define, Family::Paragraph, "A", "", Answer::Taken),
    (Call::Define, Family::Text, "A", "", Answer::Done),
    (Call::Define, Family::Paragraph, "B", "A", Answer::Done),
    (Call::Define, Family::Paragraph, "C", "B", Answer::Done),
    (Call::Define, Family::Paragraph, "D", "D", Answer::NoStyle),
    (Call::Define, Family::Paragraph, "", "", Answer::NoStyle),
    (
        Call::Reparent,
        Family::Paragraph,
        "A",
        "C",
        Answer::StyleLoop,
    ),
    (
        Call::Reparent,
        Family::Paragraph,
        "A",
        "A",
        Answer::StyleLoop,
    ),
    (Call::Reparent, Family::Text, "A", "C", Answer::NoStyle),
    (Call::Reparent, Family::Section, "A", "", Answer::NoStyle),
    (Call::Reparent, Family::Paragraph, "C", "A", Answer::Done),
    (Call::Remove, Family::Paragraph, "B", "", Answer::Done),
    (Call::Remove, Family::Paragraph, "B", "", Answer::NoStyle),
    (Call::Unset, Family::Paragraph, "C", "", Answer::Done),
    (Call::Unset, Family::Text, "C", "", Answer::NoStyle),
];

fn name(alloc: Global, text: &str) -> Result<Name, AllocError> {
    Ok(Name::from_list(String::from_str(alloc, text)?))
}

fn style(alloc: Global, family: Family, own: Name, parent: Name) -> Style {
    Style {
        family,
        name: own,
        auto: false,
        parent,
        next: Name::none(alloc),
        master: None,
        outline: 0,
        props: Props::unstated(),
    }
}

fn answer_of<T: Drop>(answer: Result<T, StyleRefusal>) -> Result<Answer, AllocError> {
    match answer {
        Ok(_) => Ok(Answer::Done),
        Err(StyleRefusal::NoStyle(_)) => Ok(Answer::NoStyle),
        Err(StyleRefusal::Taken(_)) => Ok(Answer::Taken),
        Err(StyleRefusal::StyleLoop(_)) => Ok(Answer::StyleLoop),
        Err(StyleRefusal::NoMemory) => Err(AllocError),
    }
}

fn make(
    alloc: Global,
    tree: &mut StyleTree,
    call: Call,
    family: Family,
    own: &str,
    parent: &str,
) -> Result<Answer, AllocError> {
    let own = name(alloc, own)?;
    let parent = name(alloc, parent)?;
    match call {
        Call::Define => answer_of(tree.define(style(alloc, family, own, parent))),
        Call::Remove => answer_of(tree.remove(family, &own)),
        Call::Reparent => answer_of(tree.reparent(family, &own, &parent)),
        Call::Unset => answer_of(tree.set_prop(family, &own, &Prop::Display(None))),
    }
}

fn rows_agree(alloc: Global) -> Result<bool, AllocError> {
    let mut tree = StyleTree::new(alloc, Props::unstated())?;
    for (made, family, own, parent, answer) in ROWS {
        if make(alloc, &mut tree, *made, *family, own, parent)? != *answer {
            return Ok(false);
        }
    }
    Ok(tree.len() == 3)
}

#[test]
fn calls_answer_by_cause(rt: HostRuntime) -> Result<(), Fail> {
    assert!(rt; rows_agree(rt.alloc())?);
    Ok(())
}

// Puts a style behind all others, each the parent of the next.
fn put_behind(alloc: Global, tree: &mut StyleTree, number: u32) -> Result<bool, AllocError> {
    let own = name(alloc, number.to_string(alloc)?.as_str())?;
    let parent = name(alloc, number.saturating_sub(1).to_string(alloc)?.as_str())?;
    let style = style(alloc, Family::Paragraph, own, parent);
    match tree.place_of(style.family, &style.name) {
        Some(_) => Ok(false),
        None => {
            tree.put(tree.len(), style)?;
            Ok(true)
        }
    }
}

// The styles 1 to `count`, each the parent of the next.
fn chain(alloc: Global, count: u32) -> Result<StyleTree, AllocError> {
    let mut tree = StyleTree::new(alloc, Props::unstated())?;
    for number in 1..=count {
        put_behind(alloc, &mut tree, number)?;
    }
    Ok(tree)
}

// The left margin and the alignment that hold for a style.
fn holds(tree: &StyleTree, style: &Name, margin: i32, align: Align) -> Result<bool, AllocError> {
    let props = tree.effective(style)?;
    Ok(props.margin_left == Length::new(margin) && props.align == Some(align))
}

// The first style of a chain gets a margin, behind a sharing.
fn chain_agrees(alloc: Global) -> Result<bool, AllocError> {
    let mut tree = chain(alloc, 16_384)?;
    let first = name(alloc, "1")?;
    let last = name(alloc, "16384")?;
    let copy = tree.share()?;
    let set = answer_of(tree.set_prop(
        Family::Paragraph,
        &first,
        &Prop::MarginLeft(Length::new(182_880)),
    ))?;
    let end = answer_of(tree.set_prop(Family::Paragraph, &last, &Prop::Align(Some(Align::End))))?;
    if set != Answer::Done || end != Answer::Done {
        return Ok(false);
    }
    if answer_of(tree.reparent(Family::Paragraph, &first, &last))? != Answer::StyleLoop {
        return Ok(false);
    }
    if !put_behind(alloc, &mut tree, 16_385)? || copy.len() != 16_384 {
        return Ok(false);
    }
    if !holds(&tree, &last, 182_880, Align::End)? {
        return Ok(false);
    }
    if tree.stated(Family::Paragraph, &last)?.master.is_some() {
        return Ok(false);
    }
    holds(&copy, &last, 0, Align::Start)
}

#[test]
fn a_long_chain_answers_and_a_shared_tree_stays(rt: HostRuntime) -> Result<(), Fail> {
    assert!(rt; chain_agrees(rt.alloc())?);
    Ok(())
}
