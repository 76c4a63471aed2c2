//! That what idle turns answer is told by the replies, and that a copied reply is the same.

use crate::*;
use doc_model::Txt;
use line_model::Stamp;
use round_model::{Published, Taken};
use std::test::Fail;

#[test]
fn idle_turns_are_told_by_replies(rt: HostRuntime) {
    assert!(rt; Reply::of_taken(Taken::Moved(19)) == Reply::Moved(19));
    assert!(rt; Reply::of_published(Published::Already) == Reply::Already);
    let had = Stamp {
        revision: 1,
        epoch: 1,
    };
    let stale = Published::Stale { had, now: None };
    assert!(rt; Reply::of_published(stale) == Reply::Stale { had, now: None });
}

#[test]
fn a_copied_reply_is_the_same(rt: HostRuntime) -> Result<(), Fail> {
    let alloc = rt.alloc();
    let text = Reply::Text(Txt::from_list(String::from_str(alloc, "a")?));
    assert!(rt; text.copy()? == text);
    Ok(())
}
