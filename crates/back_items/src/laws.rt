//! What the content of a paragraph is read as.

ghost use Rattle.std.specs.Prelude.{ℕ, ◌≤◌, Bool, List, [], length, map};
ghost use Rattle.std.specs.List.{AllByRecursion as Each};
ghost use Rattle.markup_nodes.specs.declared.tree.Elem.{Elem};
ghost use Rattle.markup_nodes.specs.Node.{Node};
ghost use Rattle.doc_model.specs.declared.paragraph.Item.{Item};
ghost use Rattle.doc_model.specs.declared.paragraph.Note.{Note};
ghost use Rattle.load_model.specs.Blocks.{content_of};
ghost use Rattle.load_model.specs.Styles.{Names};
ghost use Rattle.written_model.specs.Content.{content};
ghost use Rattle.back_fields.specs.Given.{given};
ghost use Rattle.back_items.specs.Items.{IsReadable, IsReadAs};

/// Items are read back from their content where each of their notes is, and nothing is left out.
pub fn content_is_read_back()
    ensures { (names : Names) (in_note : Bool) (note_node : Note → Node Elem) (items : List Item) → Each (IsReadable names in_note note_node) items → length items ≤ 4294967295 → IsReadAs (content_of (record { spans = []; in_note = in_note }) (map (given names) (content note_node items))) items }
{}
