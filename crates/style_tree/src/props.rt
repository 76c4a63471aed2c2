//! Properties that come from several styles.
ghost use Rattle.std.specs.Prelude.{◌≡◌, IfOk};
ghost use Rattle.std.specs.Option.{option_or};
ghost use Rattle.style_model.specs.Changes.{with_prop};
ghost use Rattle.style_model.specs.Effective.{where_unstated};
ghost use Rattle.style_tree.specs.Filled.{filled};

use doc_model::{Align, BreakAt, Length, List, PageStart, Prop, Props, TabStops};
use std::alloc::{AllocError, Global};

/// The first properties, and where they state nothing, the second.
pub fn filled(first: Props, second: &Props) -> Result<Props, AllocError>
    ensures { IfOk result (λ props. props ≡ filled first second.now) }
{
    let tabs = either_tabs(first.tabs, &second.tabs)?;
    Ok(Props {
        margin_left: first.margin_left.or(second.margin_left),
        margin_right: first.margin_right.or(second.margin_right),
        margin_top: first.margin_top.or(second.margin_top),
        margin_bottom: first.margin_bottom.or(second.margin_bottom),
        indent: first.indent.or(second.indent),
        align: first.align.or(second.align),
        break_before: first.break_before.or(second.break_before),
        break_after: first.break_after.or(second.break_after),
        keep_next: first.keep_next.or(second.keep_next),
        keep_together: first.keep_together.or(second.keep_together),
        widows: first.widows.or(second.widows),
        orphans: first.orphans.or(second.orphans),
        page_number: first.page_number.or(second.page_number),
        display: first.display.or(second.display),
        tabs,
    })
}

// The first tab stops, or a copy of the second.
fn either_tabs(
    first: Option<TabStops>,
    second: &Option<TabStops>,
) -> Result<Option<TabStops>, AllocError>
    ensures { IfOk result (λ tabs. tabs ≡ option_or first second.now) }
{
    match (first, second) {
        (Some(tabs), _) => Ok(Some(tabs)),
        (None, Some(tabs)) => Ok(Some(tabs.copy()?)),
        (None, None) => Ok(None),
    }
}

/// What holds where nothing is stated: no margins, indent, breaks, keeps and tab stops, lines at the start, two lines at
/// least before and behind a page's end, no page number, and shown. It takes no memory.
pub fn where_unstated(alloc: Global) -> Props
    ensures { result ≡ where_unstated }
{
    Props {
        margin_left: Some(Length::zero()),
        margin_right: Some(Length::zero()),
        margin_top: Some(Length::zero()),
        margin_bottom: Some(Length::zero()),
        indent: Some(Length::zero()),
        align: Some(Align::Start),
        break_before: Some(BreakAt::Auto),
        break_after: Some(BreakAt::Auto),
        keep_next: Some(false),
        keep_together: Some(false),
        widows: Some(2),
        orphans: Some(2),
        page_number: Some(PageStart::Auto),
        display: Some(true),
        tabs: TabStops::from_list(List::new(alloc)),
    }
}

/// The properties with one as given, which may be unstated.
pub fn with_prop(props: Props, prop: &Prop) -> Result<Props, AllocError>
    ensures { IfOk result (λ changed. changed ≡ with_prop prop.now props) }
{
    let mut props = props;
    match prop {
        Prop::MarginLeft(length) => props.margin_left = *length,
        Prop::MarginRight(length) => props.margin_right = *length,
        Prop::MarginTop(length) => props.margin_top = *length,
        Prop::MarginBottom(length) => props.margin_bottom = *length,
        Prop::Indent(length) => props.indent = *length,
        Prop::Align(align) => props.align = *align,
        Prop::BreakBefore(at) => props.break_before = *at,
        Prop::BreakAfter(at) => props.break_after = *at,
        Prop::KeepNext(keep) => props.keep_next = *keep,
        Prop::KeepTogether(keep) => props.keep_together = *keep,
        Prop::Widows(lines) => props.widows = *lines,
        Prop::Orphans(lines) => props.orphans = *lines,
        Prop::PageNumber(start) => props.page_number = *start,
        Prop::Display(shown) => props.display = *shown,
        Prop::Tabs(tabs) => props.tabs = either_tabs(None, tabs)?,
    }
    Ok(props)
}
