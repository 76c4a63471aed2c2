//! Which characters XML 1.0 allows where.

ghost use Rattle.std.specs.Prelude.{◌≡◌};
ghost use Rattle.markup_parts.specs.Chars as named;

#[tactic(auto, unfolding(crate::specs::Chars::is_legal))]
pub fn is_legal(c: char) -> bool
    ensures { result ≡ named.is_legal c }
{
    matches!(c, '\t' | '\n' | '\r' | ' '..='\u{d7ff}' | '\u{e000}'..='\u{fffd}' | '\u{10000}'..='\u{10ffff}')
}

#[tactic(auto, unfolding(crate::specs::Chars::is_space))]
pub fn is_space(c: char) -> bool
    ensures { result ≡ named.is_space c }
{
    matches!(c, '\t' | '\n' | '\r' | ' ')
}

#[tactic(auto, unfolding(crate::specs::Chars::is_name_start))]
pub fn is_name_start(c: char) -> bool
    ensures { result ≡ named.is_name_start c }
{
    matches!(c,
        ':' | 'A'..='Z' | '_' | 'a'..='z' | '\u{c0}'..='\u{d6}' | '\u{d8}'..='\u{f6}' | '\u{f8}'..='\u{2ff}'
        | '\u{370}'..='\u{37d}' | '\u{37f}'..='\u{1fff}' | '\u{200c}'..='\u{200d}' | '\u{2070}'..='\u{218f}'
        | '\u{2c00}'..='\u{2fef}' | '\u{3001}'..='\u{d7ff}' | '\u{f900}'..='\u{fdcf}' | '\u{fdf0}'..='\u{fffd}'
        | '\u{10000}'..='\u{effff}')
}

#[tactic(auto, unfolding(crate::specs::Chars::is_name_char))]
pub fn is_name_char(c: char) -> bool
    ensures { result ≡ named.is_name_char c }
{
    is_name_start(c)
        || matches!(c, '-' | '.' | '0'..='9' | '\u{b7}' | '\u{300}'..='\u{36f}' | '\u{203f}'..='\u{2040}')
}

/// Whether a character stands for itself in character data, whatever follows.
#[tactic(auto, unfolding(crate::specs::Chars::is_text_char))]
pub fn is_text_char(c: char) -> bool
    ensures { result ≡ named.is_text_char c }
{
    is_legal(c) && !matches!(c, '\r' | '&' | '<' | ']')
}

/// Whether a character stands for itself in an attribute value in either quotes.
#[tactic(auto, unfolding(crate::specs::Chars::is_value_char))]
pub fn is_value_char(c: char) -> bool
    ensures { result ≡ named.is_value_char c }
{
    is_legal(c) && !matches!(c, '\t'..='\n' | '\r' | '"' | '&'..='\'' | '<')
}

/// Whether no escape changes a character, neither in text nor in values.
#[tactic(auto, unfolding(crate::specs::Chars::is_plain_char))]
pub fn is_plain_char(c: char) -> bool
    ensures { result ≡ named.is_plain_char c }
{
    !matches!(c, '\t'..='\n' | '\r' | '"' | '&' | '<' | '>')
}
