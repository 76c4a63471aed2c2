//! A law of rows. Its function does nothing.
ghost use Rattle.std.specs.Prelude.{◌≡◌, List};
ghost use Rattle.doc_model.specs.declared.block.Block.{Block};
ghost use Rattle.node_array.specs.Rows.{rows_of};

/// Bodies that have the same rows are the same.
pub fn same_rows()
    ensures { (one other : List Block) → rows_of one ≡ rows_of other → one ≡ other }
{}
