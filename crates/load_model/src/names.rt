//! The names of OpenDocument that are read.

/// What an element is, by its expanded name (OpenDocument 1.3 part 3).
#[derive(Debug, Clone, Copy, PartialEq, Eq)]
pub enum Tag {
    /// 'office:document'.
    Document,
    /// 'office:styles'.
    CommonStyles,
    /// 'office:automatic-styles'.
    AutomaticStyles,
    /// 'office:master-styles'.
    MasterStyles,
    /// 'office:body'.
    Body,
    /// 'office:text'.
    Text,
    /// 'style:default-style'.
    DefaultStyle,
    /// 'style:style'.
    Style,
    /// 'style:paragraph-properties'.
    ParagraphProperties,
    /// 'style:text-properties'.
    TextProperties,
    /// 'style:page-layout'.
    PageLayout,
    /// 'style:page-layout-properties'.
    PageLayoutProperties,
    /// 'style:master-page'.
    MasterPage,
    /// 'style:header'.
    Header,
    /// 'style:footer'.
    Footer,
    /// 'text:list-style'.
    ListStyle,
    /// 'text:outline-style'.
    OutlineStyle,
    /// 'text:list-level-style-number'.
    NumberLevel,
    /// 'text:list-level-style-bullet'.
    BulletLevel,
    /// 'text:outline-level-style'.
    OutlineLevel,
    /// 'text:variable-decls'.
    VariableDeclarations,
    /// 'text:variable-decl'.
    VariableDeclaration,
    /// 'text:sequence-decls'.
    SequenceDeclarations,
    /// 'text:sequence-decl'.
    SequenceDeclaration,
    /// 'text:p'.
    Paragraph,
    /// 'text:h'.
    Heading,
    /// 'text:list'.
    List,
    /// 'text:list-item'.
    ListItem,
    /// 'text:list-header'.
    ListHeader,
    /// 'text:section'.
    Section,
    /// 'text:section-source'.
    SectionSource,
    /// An index, its body or title, or 'text:numbered-paragraph'.
    Index,
    /// 'text:span'.
    Span,
    /// 'text:s'.
    Spaces,
    /// 'text:tab'.
    Tab,
    /// 'text:line-break'.
    LineBreak,
    /// 'text:note'.
    Note,
    /// 'text:note-citation'.
    NoteCitation,
    /// 'text:note-body'.
    NoteBody,
    /// 'text:sequence'.
    Sequence,
    /// 'text:variable-set'.
    VariableSet,
    /// 'text:variable-get'.
    VariableGet,
    /// 'text:chapter'.
    Chapter,
    /// 'text:page-number'.
    PageNumber,
    /// 'text:page-count'.
    PageCount,
    /// 'text:bookmark-ref'.
    BookmarkReference,
    /// 'text:sequence-ref'.
    SequenceReference,
    /// 'text:note-ref'.
    NoteReference,
    /// 'text:bookmark'.
    Bookmark,
    /// 'text:bookmark-start'.
    BookmarkStart,
    /// 'text:bookmark-end'.
    BookmarkEnd,
    /// 'text:ruby-text'.
    RubyText,
    /// 'table:table'.
    Table,
    /// Any other element of the namespaces of office and draw.
    Foreign,
    /// Any other element, also one without a namespace or of an undeclared prefix.
    Other,
}

/// What an attribute is, by its expanded name (OpenDocument 1.3 part 3).
#[derive(Debug, Clone, Copy, PartialEq, Eq)]
pub enum Key {
    /// The declaration of a namespace, 'office:version', 'office:value-type' or 'text:display-outline-level': these have no
    /// rule and are left out without being counted.
    Uncounted,
    /// 'office:mimetype'.
    Mimetype,
    /// 'text:global'.
    Global,
    /// 'style:name'.
    Name,
    /// 'style:family'.
    Family,
    /// 'style:parent-style-name'.
    Parent,
    /// 'style:next-style-name'.
    Next,
    /// 'style:master-page-name'.
    Master,
    /// 'style:default-outline-level'.
    DefaultOutlineLevel,
    /// 'fo:margin'.
    Margin,
    /// 'fo:margin-left'.
    MarginLeft,
    /// 'fo:margin-right'.
    MarginRight,
    /// 'fo:margin-top'.
    MarginTop,
    /// 'fo:margin-bottom'.
    MarginBottom,
    /// 'fo:text-indent'.
    Indent,
    /// 'fo:text-align'.
    Align,
    /// 'fo:break-before'.
    BreakBefore,
    /// 'fo:break-after'.
    BreakAfter,
    /// 'fo:keep-with-next'.
    KeepNext,
    /// 'fo:keep-together'.
    KeepTogether,
    /// 'fo:widows'.
    Widows,
    /// 'fo:orphans'.
    Orphans,
    /// 'style:page-number'.
    PageNumber,
    /// 'text:display'.
    Display,
    /// 'fo:page-width'.
    PageWidth,
    /// 'fo:page-height'.
    PageHeight,
    /// 'style:page-layout-name'.
    Layout,
    /// 'text:level'.
    Level,
    /// 'style:num-format'.
    NumberFormat,
    /// 'style:num-prefix'.
    NumberPrefix,
    /// 'style:num-suffix'.
    NumberSuffix,
    /// 'text:start-value'.
    StartValue,
    /// 'text:display-levels'.
    DisplayLevels,
    /// 'text:bullet-char'.
    BulletChar,
    /// 'text:name'.
    TextName,
    /// 'text:style-name'.
    StyleName,
    /// 'text:outline-level'.
    OutlineLevel,
    /// 'text:protected'.
    Protected,
    /// 'xlink:href'.
    Href,
    /// 'text:section-name'.
    SectionName,
    /// 'text:id'.
    Id,
    /// 'text:note-class'.
    NoteClass,
    /// 'text:ref-name'.
    ReferenceName,
    /// 'text:reference-format'.
    ReferenceFormat,
    /// 'text:c'.
    Count,
    /// 'text:continue-numbering'.
    ContinueNumbering,
    /// 'text:select-page'.
    SelectPage,
    /// 'text:page-adjust'.
    PageAdjust,
    /// Any other attribute.
    Other,
}

/// The namespaces of OpenDocument that are read (OpenDocument 1.3 part 3), and that of links.
pub const OFFICE: &str = "urn:oasis:names:tc:opendocument:xmlns:office:1.0";

pub const STYLE: &str = "urn:oasis:names:tc:opendocument:xmlns:style:1.0";

pub const TEXT: &str = "urn:oasis:names:tc:opendocument:xmlns:text:1.0";

pub const TABLE: &str = "urn:oasis:names:tc:opendocument:xmlns:table:1.0";

pub const DRAW: &str = "urn:oasis:names:tc:opendocument:xmlns:drawing:1.0";

pub const FO: &str = "urn:oasis:names:tc:opendocument:xmlns:xsl-fo-compatible:1.0";

pub const XLINK: &str = "http://www.w3.org/1999/xlink";

/// The elements that are read: namespace, local name and what each is.
pub const KNOWN_TAGS: &[(&str, &str, Tag)] = &[
    (OFFICE, "document", Tag::Document),
    (OFFICE, "styles", Tag::CommonStyles),
    (OFFICE, "automatic-styles", Tag::AutomaticStyles),
    (OFFICE, "master-styles", Tag::MasterStyles),
    (OFFICE, "body", Tag::Body),
    (OFFICE, "text", Tag::Text),
    (STYLE, "default-style", Tag::DefaultStyle),
    (STYLE, "style", Tag::Style),
    (STYLE, "paragraph-properties", Tag::ParagraphProperties),
    (STYLE, "text-properties", Tag::TextProperties),
    (STYLE, "page-layout", Tag::PageLayout),
    (STYLE, "page-layout-properties", Tag::PageLayoutProperties),
    (STYLE, "master-page", Tag::MasterPage),
    (STYLE, "header", Tag::Header),
    (STYLE, "footer", Tag::Footer),
    (TEXT, "list-style", Tag::ListStyle),
    (TEXT, "outline-style", Tag::OutlineStyle),
    (TEXT, "list-level-style-number", Tag::NumberLevel),
    (TEXT, "list-level-style-bullet", Tag::BulletLevel),
    (TEXT, "outline-level-style", Tag::OutlineLevel),
    (TEXT, "variable-decls", Tag::VariableDeclarations),
    (TEXT, "variable-decl", Tag::VariableDeclaration),
    (TEXT, "sequence-decls", Tag::SequenceDeclarations),
    (TEXT, "sequence-decl", Tag::SequenceDeclaration),
    (TEXT, "p", Tag::Paragraph),
    (TEXT, "h", Tag::Heading),
    (TEXT, "list", Tag::List),
    (TEXT, "list-item", Tag::ListItem),
    (TEXT, "list-header", Tag::ListHeader),
    (TEXT, "section", Tag::Section),
    (TEXT, "section-source", Tag::SectionSource),
    (TEXT, "table-of-content", Tag::Index),
    (TEXT, "illustration-index", Tag::Index),
    (TEXT, "table-index", Tag::Index),
    (TEXT, "object-index", Tag::Index),
    (TEXT, "user-index", Tag::Index),
    (TEXT, "alphabetical-index", Tag::Index),
    (TEXT, "bibliography", Tag::Index),
    (TEXT, "index-body", Tag::Index),
    (TEXT, "index-title", Tag::Index),
    (TEXT, "numbered-paragraph", Tag::Index),
    (TEXT, "span", Tag::Span),
    (TEXT, "s", Tag::Spaces),
    (TEXT, "tab", Tag::Tab),
    (TEXT, "line-break", Tag::LineBreak),
    (TEXT, "note", Tag::Note),
    (TEXT, "note-citation", Tag::NoteCitation),
    (TEXT, "note-body", Tag::NoteBody),
    (TEXT, "sequence", Tag::Sequence),
    (TEXT, "variable-set", Tag::VariableSet),
    (TEXT, "variable-get", Tag::VariableGet),
    (TEXT, "chapter", Tag::Chapter),
    (TEXT, "page-number", Tag::PageNumber),
    (TEXT, "page-count", Tag::PageCount),
    (TEXT, "bookmark-ref", Tag::BookmarkReference),
    (TEXT, "sequence-ref", Tag::SequenceReference),
    (TEXT, "note-ref", Tag::NoteReference),
    (TEXT, "bookmark", Tag::Bookmark),
    (TEXT, "bookmark-start", Tag::BookmarkStart),
    (TEXT, "bookmark-end", Tag::BookmarkEnd),
    (TEXT, "ruby-text", Tag::RubyText),
    (TABLE, "table", Tag::Table),
];

/// The attributes that are read, and those that are left out without being counted: namespace, local name and what each is.
pub const KNOWN_KEYS: &[(&str, &str, Key)] = &[
    (OFFICE, "version", Key::Uncounted),
    (OFFICE, "value-type", Key::Uncounted),
    (TEXT, "display-outline-level", Key::Uncounted),
    (OFFICE, "mimetype", Key::Mimetype),
    (TEXT, "global", Key::Global),
    (STYLE, "name", Key::Name),
    (STYLE, "family", Key::Family),
    (STYLE, "parent-style-name", Key::Parent),
    (STYLE, "next-style-name", Key::Next),
    (STYLE, "master-page-name", Key::Master),
    (STYLE, "default-outline-level", Key::DefaultOutlineLevel),
    (FO, "margin", Key::Margin),
    (FO, "margin-left", Key::MarginLeft),
    (FO, "margin-right", Key::MarginRight),
    (FO, "margin-top", Key::MarginTop),
    (FO, "margin-bottom", Key::MarginBottom),
    (FO, "text-indent", Key::Indent),
    (FO, "text-align", Key::Align),
    (FO, "break-before", Key::BreakBefore),
    (FO, "break-after", Key::BreakAfter),
    (FO, "keep-with-next", Key::KeepNext),
    (FO, "keep-together", Key::KeepTogether),
    (FO, "widows", Key::Widows),
    (FO, "orphans", Key::Orphans),
    (STYLE, "page-number", Key::PageNumber),
    (TEXT, "display", Key::Display),
    (FO, "page-width", Key::PageWidth),
    (FO, "page-height", Key::PageHeight),
    (STYLE, "page-layout-name", Key::Layout),
    (TEXT, "level", Key::Level),
    (STYLE, "num-format", Key::NumberFormat),
    (STYLE, "num-prefix", Key::NumberPrefix),
    (STYLE, "num-suffix", Key::NumberSuffix),
    (TEXT, "start-value", Key::StartValue),
    (TEXT, "display-levels", Key::DisplayLevels),
    (TEXT, "bullet-char", Key::BulletChar),
    (TEXT, "name", Key::TextName),
    (TEXT, "style-name", Key::StyleName),
    (TEXT, "outline-level", Key::OutlineLevel),
    (TEXT, "protected", Key::Protected),
    (XLINK, "href", Key::Href),
    (TEXT, "section-name", Key::SectionName),
    (TEXT, "id", Key::Id),
    (TEXT, "note-class", Key::NoteClass),
    (TEXT, "ref-name", Key::ReferenceName),
    (TEXT, "reference-format", Key::ReferenceFormat),
    (TEXT, "c", Key::Count),
    (TEXT, "continue-numbering", Key::ContinueNumbering),
    (TEXT, "select-page", Key::SelectPage),
    (TEXT, "page-adjust", Key::PageAdjust),
];
