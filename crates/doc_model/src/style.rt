//! Styles and their properties.

ghost use Rattle.std.specs.Prelude.{◌≡◌, IfOk};
ghost use Rattle.doc_model.specs.Empty.{unstated};

use crate::copies::copy_option;
use crate::ranges::Length;
use crate::tabs::TabStops;
use crate::texts::Name;
use std::alloc::AllocError;

/// What a style is for ('style:family').
#[derive(Debug, Clone, Copy, PartialEq, Eq)]
pub enum Family {
    /// Paragraphs and headings.
    Paragraph,
    /// Spans of a paragraph.
    Text,
    /// Sections.
    Section,
}

/// A style ('style:style').
#[derive(Debug, Drop, PartialEq, Eq)]
pub struct Style {
    /// 'style:family'.
    pub family: Family,
    /// 'style:name', unique in its family.
    pub name: Name,
    /// Whether it is an automatic style ('office:automatic-styles').
    pub auto: bool,
    /// 'style:parent-style-name', or the empty name.
    pub parent: Name,
    /// 'style:next-style-name', or the empty name.
    pub next: Name,
    /// 'style:master-page-name', where it is stated; the empty name may be stated.
    pub master: Option<Name>,
    /// 'style:default-outline-level', 1 to 10; 0 is none.
    pub outline: u8,
    /// The properties that it states.
    pub props: Props,
}

/// Properties of paragraphs and text. `None` is unstated.
#[derive(Debug, Drop, PartialEq, Eq)]
pub struct Props {
    /// 'fo:margin-left'.
    pub margin_left: Option<Length>,
    /// 'fo:margin-right'.
    pub margin_right: Option<Length>,
    /// 'fo:margin-top'.
    pub margin_top: Option<Length>,
    /// 'fo:margin-bottom'.
    pub margin_bottom: Option<Length>,
    /// 'fo:text-indent', of the first line.
    pub indent: Option<Length>,
    /// 'fo:text-align'.
    pub align: Option<Align>,
    /// 'fo:break-before'.
    pub break_before: Option<BreakAt>,
    /// 'fo:break-after'.
    pub break_after: Option<BreakAt>,
    /// 'fo:keep-with-next': `true` is always.
    pub keep_next: Option<bool>,
    /// 'fo:keep-together': `true` is always.
    pub keep_together: Option<bool>,
    /// 'fo:widows': the least number of lines behind a page break.
    pub widows: Option<u8>,
    /// 'fo:orphans': the least number of lines before a page break.
    pub orphans: Option<u8>,
    /// 'style:page-number'.
    pub page_number: Option<PageStart>,
    /// 'text:display': `false` is none.
    pub display: Option<bool>,
    /// 'style:tab-stops'.
    pub tabs: Option<TabStops>,
}

/// One property, as it is to be stated; `None` makes it unstated.
#[derive(Debug, Drop, PartialEq, Eq)]
pub enum Prop {
    /// 'fo:margin-left'.
    MarginLeft(Option<Length>),
    /// 'fo:margin-right'.
    MarginRight(Option<Length>),
    /// 'fo:margin-top'.
    MarginTop(Option<Length>),
    /// 'fo:margin-bottom'.
    MarginBottom(Option<Length>),
    /// 'fo:text-indent'.
    Indent(Option<Length>),
    /// 'fo:text-align'.
    Align(Option<Align>),
    /// 'fo:break-before'.
    BreakBefore(Option<BreakAt>),
    /// 'fo:break-after'.
    BreakAfter(Option<BreakAt>),
    /// 'fo:keep-with-next'.
    KeepNext(Option<bool>),
    /// 'fo:keep-together'.
    KeepTogether(Option<bool>),
    /// 'fo:widows'.
    Widows(Option<u8>),
    /// 'fo:orphans'.
    Orphans(Option<u8>),
    /// 'style:page-number'.
    PageNumber(Option<PageStart>),
    /// 'text:display'.
    Display(Option<bool>),
    /// 'style:tab-stops'.
    Tabs(Option<TabStops>),
}

/// Where the lines of a paragraph stand ('fo:text-align').
#[derive(Debug, Clone, Copy, PartialEq, Eq)]
pub enum Align {
    /// `start`.
    Start,
    /// `center`.
    Center,
    /// `end`.
    End,
}

/// What is to end before or after a paragraph ('fo:break-before', 'fo:break-after').
#[derive(Debug, Clone, Copy, PartialEq, Eq)]
pub enum BreakAt {
    /// `auto`: nothing.
    Auto,
    /// `column`: the column, which is the page here.
    Column,
    /// `page`: the page.
    Page,
}

/// The number of the page on which a paragraph begins ('style:page-number').
#[derive(Debug, Clone, Copy, PartialEq, Eq)]
pub enum PageStart {
    /// `auto`: that of the page before, plus 1.
    Auto,
    /// This number.
    At(u16),
}

impl Style {
    pub fn copy(&self) -> Result<Style, AllocError>
        ensures { IfOk result (λ c. c ≡ self.now) }
    {
        let name = self.name.copy()?;
        let parent = self.parent.copy()?;
        let next = self.next.copy()?;
        let master = copy_option(&self.master)?;
        let props = self.props.copy()?;
        Ok(Style {
            family: self.family,
            name,
            auto: self.auto,
            parent,
            next,
            master,
            outline: self.outline,
            props,
        })
    }
}

impl Clone for Style {
    ghost is_clone = { λ x y. y ≡ x };

    fn clone(&self) -> Result<Style, AllocError> {
        self.copy()
    }
}

impl Props {
    /// Those of which none is stated. It takes no memory.
    #[tactic(auto, unfolding(crate::specs::Empty::unstated))]
    pub fn unstated() -> Props
        ensures { result ≡ unstated }
    {
        Props {
            margin_left: None,
            margin_right: None,
            margin_top: None,
            margin_bottom: None,
            indent: None,
            align: None,
            break_before: None,
            break_after: None,
            keep_next: None,
            keep_together: None,
            widows: None,
            orphans: None,
            page_number: None,
            display: None,
            tabs: None,
        }
    }

    pub fn copy(&self) -> Result<Props, AllocError>
        ensures { IfOk result (λ c. c ≡ self.now) }
    {
        let tabs = copy_option(&self.tabs)?;
        Ok(Props {
            margin_left: self.margin_left,
            margin_right: self.margin_right,
            margin_top: self.margin_top,
            margin_bottom: self.margin_bottom,
            indent: self.indent,
            align: self.align,
            break_before: self.break_before,
            break_after: self.break_after,
            keep_next: self.keep_next,
            keep_together: self.keep_together,
            widows: self.widows,
            orphans: self.orphans,
            page_number: self.page_number,
            display: self.display,
            tabs,
        })
    }
}

impl Prop {
    pub fn copy(&self) -> Result<Prop, AllocError>
        ensures { IfOk result (λ c. c ≡ self.now) }
    {
        match self {
            Prop::MarginLeft(length) => Ok(Prop::MarginLeft(*length)),
            Prop::MarginRight(length) => Ok(Prop::MarginRight(*length)),
            Prop::MarginTop(length) => Ok(Prop::MarginTop(*length)),
            Prop::MarginBottom(length) => Ok(Prop::MarginBottom(*length)),
            Prop::Indent(length) => Ok(Prop::Indent(*length)),
            Prop::Align(align) => Ok(Prop::Align(*align)),
            Prop::BreakBefore(at) => Ok(Prop::BreakBefore(*at)),
            Prop::BreakAfter(at) => Ok(Prop::BreakAfter(*at)),
            Prop::KeepNext(keep) => Ok(Prop::KeepNext(*keep)),
            Prop::KeepTogether(keep) => Ok(Prop::KeepTogether(*keep)),
            Prop::Widows(lines) => Ok(Prop::Widows(*lines)),
            Prop::Orphans(lines) => Ok(Prop::Orphans(*lines)),
            Prop::PageNumber(start) => Ok(Prop::PageNumber(*start)),
            Prop::Display(shown) => Ok(Prop::Display(*shown)),
            Prop::Tabs(tabs) => Ok(Prop::Tabs(copy_option(tabs)?)),
        }
    }
}
