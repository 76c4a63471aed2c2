//! What stands at the front of small texts, by the productions of XML 1.0.

use crate::{Stop, cdata, comment, literal, name, reference};

// Texts that begin with a name or not.
const NAMES: &[(&str, Result<(&str, &str), Stop>)] = &[
    ("a:b-1=", Ok(("a:b-1", "="))),
    ("é漢 ", Ok(("é漢", " "))),
    ("1a ", Err(Stop::Broken)),
    ("-a ", Err(Stop::Broken)),
    ("a", Err(Stop::Cut)),
    ("", Err(Stop::Cut)),
];

// Texts behind an `&`.
const REFERENCES: &[(&str, Result<(char, &str), Stop>)] = &[
    ("lt;b", Ok(('<', "b"))),
    ("quot;", Ok(('"', ""))),
    ("#65;", Ok(('A', ""))),
    ("#x00000041;", Ok(('A', ""))),
    ("#0;", Err(Stop::Refused)),
    ("#xD800;", Err(Stop::Refused)),
    ("#4294967361;", Err(Stop::Refused)),
    ("nbsp;", Err(Stop::Refused)),
    ("#;", Err(Stop::Broken)),
    ("#X41;", Err(Stop::Broken)),
    ("lt b", Err(Stop::Broken)),
    ("#6", Err(Stop::Cut)),
];

// Texts that begin with a character or not.
const LITERALS: &[(&str, Result<(char, &str), Stop>)] = &[
    ("\r\na", Ok(('\n', "a"))),
    ("\ra", Ok(('\n', "a"))),
    ("\ta", Ok(('\t', "a"))),
    ("\u{ffff}a", Err(Stop::Broken)),
    ("\r", Err(Stop::Cut)),
];

// Texts behind `<!--`.
const COMMENTS: &[(&str, Result<&str, Stop>)] = &[
    (" a - b -->c-->", Ok("c-->")),
    ("-->", Ok("")),
    ("a--b-->", Err(Stop::Broken)),
    ("a--", Err(Stop::Cut)),
    ("a\u{1}-->", Err(Stop::Broken)),
];

// Texts behind `<![CDATA[`.
const SECTIONS: &[(&str, Result<(&str, &str), Stop>)] = &[
    ("<a>]]]>b]]>", Ok(("<a>]", "b]]>"))),
    ("]]>", Ok(("", ""))),
    ("a]]", Err(Stop::Cut)),
];

fn has_names() -> bool {
    for (text, found) in NAMES {
        if name(text) != *found {
            return false;
        }
    }
    true
}

fn has_characters() -> bool {
    for (text, found) in REFERENCES {
        if reference(text) != *found {
            return false;
        }
    }
    for (text, found) in LITERALS {
        if literal(text) != *found {
            return false;
        }
    }
    true
}

fn has_skipped() -> bool {
    for (text, found) in COMMENTS {
        if comment(text) != *found {
            return false;
        }
    }
    for (text, found) in SECTIONS {
        if cdata(text) != *found {
            return false;
        }
    }
    true
}

#[test]
fn a_text_begins_with_a_construct_or_not(rt: HostRuntime) {
    assert!(rt; has_names());
    assert!(rt; has_characters());
    assert!(rt; has_skipped());
}
