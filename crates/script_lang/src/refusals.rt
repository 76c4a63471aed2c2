//! Refusals as they are printed.

ghost use Rattle.std.specs.Prelude.{◌≡◌, ◌++◌, length, take, codes, chars, decimal, OnOk};
ghost use Rattle.desk_model.specs.Replies.{refusal_words, sort_word, limit_word, quoted};

use crate::printing::{push_bytes, push_two_numbers, push_word_number};
use crate::quotes::push_quoted;
use doc_model::{Limit, NameSort, Refusal};
use std::alloc::AllocError;

/// That an edit of a group is refused, and why.
pub(crate) fn push_refused(out: &mut Vec<u8>, index: u32, why: &Refusal) -> Result<(), AllocError>
    ensures ok { OnOk result (out.new.items ≡ out.old.items
        ++ (codes "refused " ++ (decimal index ++ (codes " " ++ (refusal_words why.now ++ codes "\n"))))) }
    ensures front { take (length out.old.items) out.new.items ≡ out.old.items }
{
    push_word_number(out, b"refused ", index)?;
    push_bytes(out, b" ")?;
    push_refusal(out, why)?;
    push_bytes(out, b"\n")
}

fn push_refusal(out: &mut Vec<u8>, why: &Refusal) -> Result<(), AllocError>
    ensures ok { OnOk result (out.new.items ≡ out.old.items ++ refusal_words why.now) }
    ensures front { take (length out.old.items) out.new.items ≡ out.old.items }
{
    match why {
        Refusal::NoPar(par) => push_word_number(out, b"no-par ", par.0),
        Refusal::PastEnd(par, count) => push_two_numbers(out, b"past-end ", par.0, *count),
        Refusal::BadRange(from, to) => push_two_numbers(out, b"bad-range ", *from, *to),
        Refusal::BadChar(offset) => push_word_number(out, b"bad-char ", *offset),
        Refusal::Limit(limit, number) => push_limit(out, *limit, *number),
        Refusal::NoName(sort, name) => push_sorted(out, b"no-name ", *sort, name.get()),
        Refusal::NameTaken(sort, name) => push_sorted(out, b"name-taken ", *sort, name.get()),
        Refusal::Protected(section) => push_named(out, b"protected ", section.get()),
        Refusal::StyleLoop(style) => push_named(out, b"style-loop ", style.get()),
        Refusal::InUse(style, par) => push_in_use(out, style.get(), par.0),
        Refusal::NotTogether(first, second) => {
            push_two_numbers(out, b"not-together ", first.0, second.0)
        }
        Refusal::Level(level) => push_word_number(out, b"level ", u32::from(*level)),
        Refusal::LastPar(par) => push_word_number(out, b"last-par ", par.0),
    }
}

// A word, and a name in quotes.
fn push_named(out: &mut Vec<u8>, word: &[u8], name: &str) -> Result<(), AllocError>
    ensures ok { OnOk result (out.new.items ≡ out.old.items ++ (word.now ++ quoted (chars name.now))) }
    ensures front { take (length out.old.items) out.new.items ≡ out.old.items }
{
    push_bytes(out, word)?;
    push_quoted(out, name)
}

// A word, what the name names, and the name in quotes.
fn push_sorted(out: &mut Vec<u8>, word: &[u8], sort: NameSort, name: &str) -> Result<(), AllocError>
    ensures ok { OnOk result (out.new.items ≡ out.old.items ++ (word.now ++ (sort_word sort ++ (codes " " ++ quoted (chars name.now))))) }
    ensures front { take (length out.old.items) out.new.items ≡ out.old.items }
{
    push_bytes(out, word)?;
    push_bytes(out, sort_word(sort))?;
    push_bytes(out, b" ")?;
    push_quoted(out, name)
}

// That a style is in use, and the first paragraph that uses it.
fn push_in_use(out: &mut Vec<u8>, style: &str, par: u32) -> Result<(), AllocError>
    ensures ok { OnOk result (out.new.items ≡ out.old.items ++ (codes "in-use " ++ (quoted (chars style.now) ++ (codes " " ++ decimal par)))) }
    ensures front { take (length out.old.items) out.new.items ≡ out.old.items }
{
    push_bytes(out, b"in-use ")?;
    push_quoted(out, style)?;
    push_word_number(out, b" ", par)
}

fn push_limit(out: &mut Vec<u8>, limit: Limit, number: u32) -> Result<(), AllocError>
    ensures ok { OnOk result (out.new.items ≡ out.old.items ++ (codes "limit " ++ (limit_word limit ++ (codes " " ++ decimal number)))) }
    ensures front { take (length out.old.items) out.new.items ≡ out.old.items }
{
    push_bytes(out, b"limit ")?;
    push_bytes(out, limit_word(limit))?;
    push_word_number(out, b" ", number)
}

fn sort_word(sort: NameSort) -> &'static [u8]
    ensures { result.now ≡ sort_word sort }
{
    match sort {
        NameSort::Style => b"style",
        NameSort::ListStyle => b"list-style",
        NameSort::Master => b"master",
        NameSort::Bookmark => b"bookmark",
        NameSort::Section => b"section",
        NameSort::Sequence => b"sequence",
        NameSort::Variable => b"variable",
        NameSort::Reference => b"reference",
        NameSort::Note => b"note",
        NameSort::Property => b"property",
    }
}

fn limit_word(limit: Limit) -> &'static [u8]
    ensures { result.now ≡ limit_word limit }
{
    match limit {
        Limit::Paragraphs => b"paragraphs",
        Limit::ItemsOfParagraph => b"items-of-paragraph",
        Limit::Items => b"items",
        Limit::Sections => b"sections",
        Limit::SectionDepth => b"section-depth",
        Limit::Styles => b"styles",
        Limit::ListStyles => b"list-styles",
        Limit::Layouts => b"layouts",
        Limit::Masters => b"masters",
        Limit::Declarations => b"declarations",
        Limit::NameLength => b"name",
        Limit::Operations => b"operations",
        Limit::Identifiers => b"identifiers",
    }
}
