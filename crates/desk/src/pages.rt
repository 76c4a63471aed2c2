//! The reply to the question for a page.

ghost use Rattle.std.specs.Prelude.{◌≡◌, ◌-◌, ◌<◌, ◌≤◌, ◌^◌, length, slice_get, Some, None};

use desk_model::Reply;
use doc_model::{List, Page};

/// The page of an index, from 1, or how many pages there are.
pub(crate) fn page_reply(pages: List<Page>, index: u32) -> Reply
    requires { length pages < 2 ^ 32 }
    ensures zero { index ≡ 0 → result ≡ Reply.NoPage (length pages) }
    ensures page { (page : Page) → 1 ≤ index → slice_get pages (index - 1) ≡ Some page → result ≡ Reply.Page page (length pages) }
    ensures none { slice_get pages (index - 1) ≡ None → result ≡ Reply.NoPage (length pages) }
{
    let count = pages.len() as u32;
    if index == 0 {
        return Reply::NoPage(count);
    }
    if index > count {
        return Reply::NoPage(count);
    }
    let page = pages.into_vec().swap_remove(index as usize - 1);
    Reply::Page(page, count)
}
