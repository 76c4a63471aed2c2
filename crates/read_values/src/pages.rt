//! Numbers of pages.
ghost use Rattle.std.specs.Prelude.{◌≡◌, ◌≤◌, Some, chars, codes};
ghost use Rattle.std.specs.Option.{option_map};
ghost use Rattle.std.specs.Str.{bytes_eq};
ghost use Rattle.style_model.specs.Lengths.{signed};
ghost use Rattle.load_model.specs.Values as values;

use crate::numbers::number;
use doc_model::{PageAdjust, PageStart};

/// The most pages that are added or taken off.
const MOST_PAGES: u32 = 9999;

/// The number of the page behind a break ('style:page-number'): 'auto', or 0 to 65535.
pub fn page_start(text: &str) -> Option<PageStart>
    ensures { result ≡ values.page_start (chars text.now) }
{
    if is_auto(text) {
        return Some(PageStart::Auto);
    }
    match number(0, 65535, text) {
        Some(number) => Some(PageStart::At(number as u16)),
        None => None,
    }
}

// Whether a text is 'auto'.
fn is_auto(text: &str) -> bool
    ensures { result ≡ bytes_eq (chars text.now) (codes "auto") }
{
    text == "auto"
}

/// How many pages are added to a page's number ('text:page-adjust'): -9999 to 9999.
pub fn page_adjust(text: &str) -> Option<PageAdjust>
    ensures { result ≡ values.page_adjust (chars text.now) }
{
    match text.strip_prefix('-') {
        Some(digits) => adjust(true, digits),
        None => adjust(false, text),
    }
}

// The pages of digits and a sign.
fn adjust(below_zero: bool, digits: &str) -> Option<PageAdjust>
    ensures { result ≡ option_map (λ pages. signed below_zero pages) (values.number 0 9999 (chars digits.now)) }
{
    match number(0, MOST_PAGES, digits) {
        Some(pages) => signed(below_zero, pages),
        None => None,
    }
}

// The pages of a size and a sign.
fn signed(below_zero: bool, pages: u32) -> Option<PageAdjust>
    requires { pages ≤ 9999 }
    ensures { result ≡ Some (signed below_zero pages) }
{
    let pages = pages as i32;
    if below_zero {
        return PageAdjust::new(-pages);
    }
    PageAdjust::new(pages)
}
