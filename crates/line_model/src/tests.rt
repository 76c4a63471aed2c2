//! That keys, jobs and formed jobs can be copied and compared, and that a hidden key is formed with no line.

ghost use Rattle.std.specs.Prelude.{◌≡◌, true, IfOk};

use crate::*;
use doc_model::{Align, List, ParId};
use std::alloc::{AllocError, Global};
use std::test::Fail;

fn hidden_key(alloc: Global, columns: u32) -> Result<Key, AllocError>
    ensures { IfOk result (λ key. key.hidden ≡ true) }
{
    Ok(Key {
        hidden: true,
        text: ShownText::from_text(String::new(alloc)),
        notes: List::new(alloc),
        columns,
        left: 0,
        right: 0,
        indent: 0,
        level: 0,
        align: Align::Start,
        tabs: List::new(alloc),
    })
}

#[test]
fn keys_are_the_same_where_their_parts_are(rt: HostRuntime) -> Result<(), Fail> {
    let alloc = rt.alloc();
    let key = hidden_key(alloc, 8)?;
    assert!(rt; key.copy()?.is_same(&key));
    assert!(rt; !hidden_key(alloc, 9)?.is_same(&key));
    Ok(())
}

#[test]
#[tactic(auto, unfolding(crate::specs::Lines::lines_of))]
fn a_hidden_key_is_formed_with_no_line(rt: HostRuntime) -> Result<(), Fail> {
    let alloc = rt.alloc();
    let stamp = Stamp {
        revision: 1,
        epoch: 1,
    };
    let job = Job {
        par: ParId(1),
        stamp,
        key: hidden_key(alloc, 8)?,
    };
    let copied = job.copy()?;
    let formed = Formed::of(job, List::new(alloc)).copy()?;
    assert_eq!(rt; formed.lines().len(), 0);
    assert!(rt; *formed.job() == copied);
    assert!(rt; formed.job().stamp.is_same(&stamp));
    Ok(())
}
