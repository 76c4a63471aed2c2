//! The last headings of each level.

ghost use Rattle.std.specs.Prelude.{◌≡◌, IfOk};
ghost use Rattle.std.specs.Option.{option_copied};
ghost use Rattle.page_model.specs.Bodies.{heading_at};
ghost use Rattle.paginate.specs.Heads.{heads_behind as later_heads, no_heads as blank_heads, raised as raised_heads};

use doc_model::List;
use page_model::{HeadText, Heading, Row};
use std::alloc::{AllocError, Global};

/// No heading of any of the ten levels.
pub fn no_heads(alloc: Global) -> Result<List<Option<HeadText>>, AllocError>
    ensures { IfOk result (λ heads. heads ≡ blank_heads) }
{
    let mut heads = List::new(alloc);
    for _ in 0u32..10 {
        heads.push(None)?;
    }
    Ok(heads)
}

/// The last headings behind these and some rows.
pub fn heads_behind(
    alloc: Global,
    heads: &[Option<HeadText>],
    rows: &[Row],
) -> Result<List<Option<HeadText>>, AllocError>
    ensures { IfOk result (λ now. now ≡ later_heads heads.now rows.now) }
{
    let mut behind = copy_heads(alloc, heads)?;
    'rows: for row in rows {
        if let Some(heading) = heading_of(row) {
            behind = raised(alloc, behind.get(), heading)?;
        }
    }
    Ok(behind)
}

/// The heading that the paragraph of a row is, where it is the first row of it.
fn heading_of(row: &Row) -> Option<&Heading>
    ensures { option_copied result ≡ heading_at row.now }
{
    match &row.first {
        Some(first) => first.heading.as_ref(),
        None => None,
    }
}

/// The last headings behind these and one more.
fn raised(
    alloc: Global,
    heads: &[Option<HeadText>],
    heading: &Heading,
) -> Result<List<Option<HeadText>>, AllocError>
    ensures { IfOk result (λ now. now ≡ raised_heads heading.now 1 heads.now) }
{
    let mut behind = List::new(alloc);
    'levels: for (index, head) in heads.iter().enumerate() {
        if usize::from(heading.level) <= index + 1 {
            behind.push(Some(heading.text.copy()?))?;
        } else {
            behind.push(copy_head(head)?)?;
        }
    }
    Ok(behind)
}

/// A copy of last headings.
pub fn copy_heads(
    alloc: Global,
    heads: &[Option<HeadText>],
) -> Result<List<Option<HeadText>>, AllocError>
    ensures { IfOk result (λ now. now ≡ heads.now) }
{
    let mut behind = List::new(alloc);
    for head in heads {
        behind.push(copy_head(head)?)?;
    }
    Ok(behind)
}

/// A copy of what may be a heading.
fn copy_head(head: &Option<HeadText>) -> Result<Option<HeadText>, AllocError>
    ensures { IfOk result (λ copy. copy ≡ head.now) }
{
    match head {
        Some(text) => Ok(Some(text.copy()?)),
        None => Ok(None),
    }
}
