//! Values of which each has its text.
ghost use Rattle.std.specs.Prelude.{◌≡◌, true, map, chars};
ghost use Rattle.std.specs.List.{list_all};
ghost use Rattle.load_model.specs.Values as values;
ghost use Rattle.read_values.specs.Words.{is_ascii_text};

use doc_model::{Align, BreakAt, ChapterShow, Family, Format, NoteClass, RefForm, Select, SeqForm};

// The value of the first row whose bytes are those of the text.
fn by_bytes<T: Copy>(table: &[(&str, T)], text: &str) -> Option<T>
    ensures { result ≡ values.by_table (map (λ row. (row.0.now, row.1)) table.now) text.now }
{
    'rows: for row in table {
        if *row.0 == *text {
            return Some(row.1);
        }
    }
    None
}

// The value of the first row that has the text, in a table of ASCII texts.
fn by_table<T: Copy>(table: &[(&str, T)], text: &str) -> Option<T>
    requires ascii { list_all (λ row. is_ascii_text row.0.now) table.now ≡ true }
    ensures { result ≡ values.by_table (map (λ row. (row.0.now, row.1)) table.now) (chars text.now) }
{
    by_bytes(table, text)
}

const TRUTHS: &[(&str, bool)] = &[("true", true), ("false", false)];

/// A truth value ('true', 'false').
pub fn truth(text: &str) -> Option<bool>
    ensures { result ≡ values.truth (chars text.now) }
{
    by_table(TRUTHS, text)
}

const FAMILIES: &[(&str, Family)] = &[
    ("paragraph", Family::Paragraph),
    ("text", Family::Text),
    ("section", Family::Section),
];

/// The family of a style ('style:family').
pub fn family(text: &str) -> Option<Family>
    ensures { result ≡ values.family_of_text (chars text.now) }
{
    by_table(FAMILIES, text)
}

const ALIGNMENTS: &[(&str, Align)] = &[
    ("start", Align::Start),
    ("left", Align::Start),
    ("justify", Align::Start),
    ("end", Align::End),
    ("right", Align::End),
    ("center", Align::Center),
];

/// Where lines stand ('fo:text-align').
pub fn alignment(text: &str) -> Option<Align>
    ensures { result ≡ values.alignment (chars text.now) }
{
    by_table(ALIGNMENTS, text)
}

const BREAKS: &[(&str, BreakAt)] = &[
    ("auto", BreakAt::Auto),
    ("column", BreakAt::Column),
    ("page", BreakAt::Page),
];

/// What ends before or behind a paragraph ('fo:break-before', 'fo:break-after').
pub fn break_at(text: &str) -> Option<BreakAt>
    ensures { result ≡ values.break_at (chars text.now) }
{
    by_table(BREAKS, text)
}

const KEEPS: &[(&str, bool)] = &[("auto", false), ("always", true)];

/// Whether a paragraph is kept together or with the next one ('fo:keep-together', 'fo:keep-with-next').
pub fn keep(text: &str) -> Option<bool>
    ensures { result ≡ values.keep (chars text.now) }
{
    by_table(KEEPS, text)
}

const DISPLAYS: &[(&str, bool)] = &[("true", true), ("condition", true), ("none", false)];

/// Whether text is shown ('text:display').
pub fn display(text: &str) -> Option<bool>
    ensures { result ≡ values.display (chars text.now) }
{
    by_table(DISPLAYS, text)
}

const FORMATS: &[(&str, Format)] = &[
    ("1", Format::Digits),
    ("a", Format::LowerLetter),
    ("A", Format::UpperLetter),
    ("i", Format::LowerRoman),
    ("I", Format::UpperRoman),
    ("", Format::Empty),
];

/// How numbers are written ('style:num-format').
pub fn number_format(text: &str) -> Option<Format>
    ensures { result ≡ values.number_format (chars text.now) }
{
    by_table(FORMATS, text)
}

const CHAPTERS: &[(&str, ChapterShow)] = &[
    ("name", ChapterShow::Name),
    ("number", ChapterShow::Number),
    ("plain-number", ChapterShow::PlainNumber),
    ("number-and-name", ChapterShow::NumberAndName),
    ("plain-number-and-name", ChapterShow::PlainNumberAndName),
];

/// What a chapter field shows ('text:display' of 'text:chapter').
pub fn chapter_display(text: &str) -> Option<ChapterShow>
    ensures { result ≡ values.chapter_display (chars text.now) }
{
    by_table(CHAPTERS, text)
}

const SELECTS: &[(&str, Select)] = &[
    ("previous", Select::Previous),
    ("current", Select::Current),
    ("next", Select::Next),
];

/// Which page's number a field shows ('text:select-page').
pub fn page_select(text: &str) -> Option<Select>
    ensures { result ≡ values.page_select (chars text.now) }
{
    by_table(SELECTS, text)
}

const REFERENCES: &[(&str, RefForm)] = &[
    ("text", RefForm::Text),
    ("page", RefForm::Page),
    ("chapter", RefForm::Chapter),
    ("direction", RefForm::Direction),
];

/// What a reference shows ('text:reference-format').
pub fn reference_form(text: &str) -> Option<RefForm>
    ensures { result ≡ values.reference_form (chars text.now) }
{
    by_table(REFERENCES, text)
}

const SEQUENCES: &[(&str, SeqForm)] = &[
    ("text", SeqForm::Text),
    ("page", SeqForm::Page),
    ("chapter", SeqForm::Chapter),
    ("direction", SeqForm::Direction),
    ("value", SeqForm::Value),
    ("category-and-value", SeqForm::CategoryAndValue),
    ("caption", SeqForm::Caption),
];

/// What a reference to a sequence field shows ('text:reference-format' of 'text:sequence-ref').
pub fn sequence_form(text: &str) -> Option<SeqForm>
    ensures { result ≡ values.sequence_form (chars text.now) }
{
    by_table(SEQUENCES, text)
}

const CLASSES: &[(&str, NoteClass)] = &[
    ("footnote", NoteClass::Footnote),
    ("endnote", NoteClass::Endnote),
];

/// The class of a note ('text:note-class').
pub fn note_class(text: &str) -> Option<NoteClass>
    ensures { result ≡ values.note_class (chars text.now) }
{
    by_table(CLASSES, text)
}
