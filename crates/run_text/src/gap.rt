//! Cells of which a run, the gap, is filled with values that nobody reads.
ghost use Rattle.std.specs.Prelude.{◌≡◌, ◌+◌, ◌≤◌, ◌++◌, length, take, drop, vec_len, IfOk, OnOk, OnErr};
ghost use Rattle.std.specs.List.{between, remove_range};

use std::alloc::{AllocError, Global};
use std::default::MadeWith;

// Moves a gap of `width` cells from `start` to `at`. Each swap lets one item pass the gap.
pub fn move_gap<T>(cells: &mut [T], mut start: usize, at: usize, width: usize)
    requires before { start + width ≤ length cells.old }
    requires after { at + width ≤ length cells.old }
    ensures { remove_range cells.new at (at + width) ≡ remove_range cells.old start (start + width) }
{
    'right: while start < at {
        cells.swap(start, start + width);
        start += 1;
    }
    'left: while at < start {
        start -= 1;
        cells.swap(start, start + width);
    }
}

// Makes the gap from `start` to `end` wide enough for `count` items, and answers where it then ends.
//
// A gap that was too narrow is as wide as the list is long at least, so that few splices widen it.
pub fn make_room<T: MadeWith<Global> + Drop>(
    cells: &mut Vec<T>,
    start: usize,
    end: usize,
    count: usize,
) -> Result<usize, AllocError>
    requires ordered { start ≤ end }
    requires within { end ≤ vec_len cells.old }
    ensures room { IfOk result (λ wide. start + count ≤ wide) }
    ensures inside { IfOk result (λ wide. wide ≤ vec_len cells.new) }
    ensures front { OnOk result (take start cells.new.items ≡ take start cells.old.items) }
    ensures back { IfOk result (λ wide. drop wide cells.new.items ≡ drop end cells.old.items) }
    ensures err { OnErr result (cells.new.items ≡ cells.old.items) }
{
    let width = end - start;
    if count <= width {
        return Ok(end);
    }
    let listed = cells.len() - width;
    let more = count.max(listed) - width;
    widen(cells, end, more)?;
    Ok(end + more)
}

// Writes clones of the items into the cells from `at` on. After an error some may have been written.
pub fn write_clones<T: Clone>(cells: &mut [T], at: usize, items: &[T]) -> Result<(), AllocError>
    requires within { at + length items.now ≤ length cells.old }
    requires clones { (x y : T) → T.is_clone x y → y ≡ x }
    ensures front { take at cells.new ≡ take at cells.old }
    ensures back { drop (at + length items.now) cells.new ≡ drop (at + length items.now) cells.old }
    ensures written { OnOk result (take (at + length items.now) cells.new ≡ take at cells.old ++ items.now) }
{
    cells[at..at + items.len()].clone_from_slice(items)
}

// Takes the items from `at` on out of their cells, into `taken`, and leaves there what it held.
pub fn take_out<T>(cells: &mut [T], at: usize, taken: &mut [T])
    requires { at + length taken.old ≤ length cells.old }
    ensures taken { taken.new ≡ between at (at + length taken.old) cells.old }
    ensures front { take at cells.new ≡ take at cells.old }
    ensures back { drop (at + length taken.old) cells.new ≡ drop (at + length taken.old) cells.old }
{
    cells[at..at + taken.len()].swap_with_slice(taken);
}

// As many values that fill a gap. They hold no memory.
pub fn fillers<T: MadeWith<Global> + Drop>(
    alloc: Global,
    count: usize,
) -> Result<Vec<T>, AllocError>
    ensures { IfOk result (λ cells. vec_len cells ≡ count) }
{
    let mut cells = Vec::new(alloc);
    cells.resize_with(count, || T::made_with(alloc))?;
    Ok(cells)
}

// Widens a gap that ends at `end` by so many cells.
fn widen<T: MadeWith<Global> + Drop>(
    cells: &mut Vec<T>,
    end: usize,
    more: usize,
) -> Result<(), AllocError>
    requires { end ≤ vec_len cells.old }
    ensures len { OnOk result (vec_len cells.new ≡ vec_len cells.old + more) }
    ensures front { OnOk result (take end cells.new.items ≡ take end cells.old.items) }
    ensures back { OnOk result (drop (end + more) cells.new.items ≡ drop end cells.old.items) }
    ensures err { OnErr result (cells.new.items ≡ cells.old.items) }
{
    let len = cells.len();
    let Some(wide) = len.checked_add(more) else {
        return Err(AllocError);
    };
    let alloc = *cells.allocator();
    cells.resize_with(wide, || T::made_with(alloc))?;
    move_gap(cells, len, end, more);
    Ok(())
}
