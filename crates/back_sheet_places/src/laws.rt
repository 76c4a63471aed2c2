//! What the places of elements are to the style parts and masters of a tree.

ghost use Rattle.std.specs.Prelude.{◌≡◌, [], length, map};
ghost use Rattle.back_names.specs.Named.{placeless};
ghost use Rattle.load_model.specs.declared.element.Element.{Element};
ghost use Rattle.load_model.specs.Headers.{masters, masters_left};
ghost use Rattle.load_model.specs.Left.{all_but, children};
ghost use Rattle.load_model.specs.Loaded.{body_left, is_global, read_in_root};
ghost use Rattle.load_model.specs.Offences.{counted_heads, places_of_loops};
ghost use Rattle.load_model.specs.Styles.{Names, defaults, kept_layouts, kept_lists, kept_masters, kept_styles, layouts, list_styles, names_of, outline, style_parts_left, styles};

/// The style parts are read alike wherever their elements stand: their names, their styles, lists, outline and layouts, how much is
/// left out in them, and how many elements of each kind are kept.
pub fn sheets_need_no_places()
    ensures names { (root : Element) → names_of (placeless root) ≡ names_of root }
    ensures styles { (names : Names) (root : Element) → styles names (placeless root) ≡ styles names root }
    ensures defaults { (root : Element) → defaults (placeless root) ≡ defaults root }
    ensures lists { (root : Element) → list_styles (placeless root) ≡ list_styles root }
    ensures outline { (root : Element) → outline (placeless root) ≡ outline root }
    ensures layouts { (root : Element) → layouts (placeless root) ≡ layouts root }
    ensures left { (names : Names) (root : Element) → style_parts_left names (placeless root) ≡ style_parts_left names root }
    ensures kept_styles { (root : Element) → length (kept_styles (placeless root)) ≡ length (kept_styles root) }
    ensures kept_lists { (root : Element) → length (kept_lists (placeless root)) ≡ length (kept_lists root) }
    ensures kept_layouts { (root : Element) → length (kept_layouts (placeless root)) ≡ length (kept_layouts root) }
{}

/// The masters with their headers and footers are read alike wherever their elements stand, and as much is left out in them.
pub fn masters_need_no_places()
    ensures masters { (names : Names) (root : Element) → masters names (placeless root) ≡ masters names root }
    ensures left { (names : Names) (root : Element) → masters_left names (placeless root) ≡ masters_left names root }
    ensures kept { (root : Element) → length (kept_masters (placeless root)) ≡ length (kept_masters root) }
{}

/// Where no style of the tree without places is its own ancestor, none of the tree is.
pub fn loops_need_no_places()
    ensures { (root : Element) → places_of_loops (placeless root) ≡ [] → places_of_loops root ≡ [] }
{}

/// The paragraphs of headers and footers have as many items wherever their elements stand.
pub fn head_lengths_need_no_places()
    ensures { (root : Element) → map (λ counted. counted.items) (counted_heads (placeless root)) ≡ map (λ counted. counted.items) (counted_heads root) }
{}

/// A file says alike whether it is a master document, and as much is left out in its root and its body, wherever their elements stand.
pub fn files_need_no_places()
    ensures global { (root : Element) → is_global (placeless root) ≡ is_global root }
    ensures root { (root : Element) → all_but (read_in_root (placeless root)) (children (placeless root)) ≡ all_but (read_in_root root) (children root) }
    ensures body { (root : Element) → body_left (placeless root) ≡ body_left root }
{}
