//! The lines of reports and offences.
ghost use Rattle.std.specs.Prelude.{◌≡◌, IfOk, string_bytes};
ghost use Rattle.std.specs.Option.{option_map};
ghost use Rattle.doc_model.specs.Limits as limits;
ghost use Rattle.file_save.specs.Lines as words;
ghost use Rattle.file_save.specs.Lines.{is_nothing};
ghost use Rattle.desk_model.specs.Replies as replies;

use doc_load::{Offence, OffenceKind};
use doc_model::{Limit, Report};
use std::alloc::{AllocError, Global};

/// The line that tells a report, with its line feed. No elements, attributes and sources take no line.
pub fn report_line(alloc: Global, report: Report) -> Result<Option<String>, AllocError>
    ensures { IfOk result (λ line. option_map string_bytes line ≡ words.report_line report) }
{
    if is_nothing(report) {
        return Ok(None);
    }
    Ok(Some(told_line(alloc, report)?))
}

// Whether a report tells of nothing.
fn is_nothing(report: Report) -> bool
    ensures { result ≡ is_nothing report }
{
    if report.elements != 0 {
        return false;
    }
    if report.attributes != 0 {
        return false;
    }
    report.sources == 0
}

// The line of a report.
fn told_line(alloc: Global, report: Report) -> Result<String, AllocError>
    ensures { IfOk result (λ line. string_bytes line ≡ words.told_line report) }
{
    let Report {
        elements,
        attributes,
        sources,
    } = report;
    format!(in alloc; "report elements {elements} attributes {attributes} sources {sources}\n")
}

/// The line that tells why a file isn't loaded, with its line feed.
pub fn offence_line(alloc: Global, offence: Offence) -> Result<String, AllocError>
    ensures { IfOk result (λ line. string_bytes line ≡ words.offence_line offence) }
{
    let kind = kind_words(alloc, offence.kind)?;
    let place = offence.place;
    format!(in alloc; "refused: {kind} at {place}\n")
}

// The words of a kind of offence.
fn kind_words(alloc: Global, kind: OffenceKind) -> Result<String, AllocError>
    ensures { IfOk result (λ text. string_bytes text ≡ words.kind_words kind) }
{
    match kind {
        OffenceKind::NotUtf8 => String::from_str(alloc, "not-utf8"),
        OffenceKind::Form => String::from_str(alloc, "form"),
        OffenceKind::Doctype => String::from_str(alloc, "doctype"),
        OffenceKind::Deep => String::from_str(alloc, "deep"),
        OffenceKind::Names => String::from_str(alloc, "names"),
        OffenceKind::Root => String::from_str(alloc, "root"),
        OffenceKind::Mime => String::from_str(alloc, "mime"),
        OffenceKind::NoText => String::from_str(alloc, "no-text"),
        OffenceKind::StyleLoop => String::from_str(alloc, "style-loop"),
        OffenceKind::Limit(limit) => limit_words(alloc, limit),
        OffenceKind::Table => String::from_str(alloc, "table"),
    }
}

// The words of a limit that is passed.
fn limit_words(alloc: Global, limit: Limit) -> Result<String, AllocError>
    ensures { IfOk result (λ text. string_bytes text ≡ words.limit_words limit) }
{
    let word = limit_word(limit);
    let number = limit_number(limit);
    format!(in alloc; "limit {word} {number}")
}

// The word of a limit.
fn limit_word(limit: Limit) -> &'static str
    ensures { result.now ≡ replies.limit_word limit }
{
    match limit {
        Limit::Paragraphs => "paragraphs",
        Limit::ItemsOfParagraph => "items-of-paragraph",
        Limit::Items => "items",
        Limit::Sections => "sections",
        Limit::SectionDepth => "section-depth",
        Limit::Styles => "styles",
        Limit::ListStyles => "list-styles",
        Limit::Layouts => "layouts",
        Limit::Masters => "masters",
        Limit::Declarations => "declarations",
        Limit::NameLength => "name",
        Limit::Operations => "operations",
        Limit::Identifiers => "identifiers",
    }
}

// The number of a limit.
fn limit_number(limit: Limit) -> u32
    ensures { result ≡ limits.limit_number limit }
{
    match limit {
        Limit::Paragraphs => 65536,
        Limit::ItemsOfParagraph => 32768,
        Limit::Items => 4194304,
        Limit::Sections => 8192,
        Limit::SectionDepth => 32,
        Limit::Styles => 16384,
        Limit::ListStyles | Limit::Declarations => 4096,
        Limit::Layouts | Limit::Masters | Limit::NameLength | Limit::Operations => 1024,
        Limit::Identifiers => 4294967295,
    }
}
