//! What holds of the names of a document. These functions do nothing.

ghost use Rattle.std.specs.Prelude.{◌≡◌, ℕ, List, ◌∷◌, ◌++◌, map, filter, not, Option, Some, None};
ghost use Rattle.doc_model.specs.declared.document.Document.{Document};
ghost use Rattle.doc_model.specs.declared.paragraph.ParId.{ParId};
ghost use Rattle.doc_model.specs.Parts.{items_in_reading_order};
ghost use Rattle.name_index.specs.declared.names.NameKind.{NameKind};
ghost use Rattle.name_index.specs.declared.names.Named.{Named};
ghost use Rattle.name_index.specs.Names.{is_same_name, found, Agree, Sets};
ghost use Rattle.name_index.specs.Scan.{placed_in_reading_order, scanned, names_of};

/// What is found among the names of a document is what a scan of it finds, and the scan reads all items in reading order.
pub fn names_are_scanned()
    ensures found { (doc : Document) (kind : NameKind) (name : List ℕ) → found (names_of doc) kind name ≡ scanned doc kind name }
    ensures items { (doc : Document) → map (λ placed. placed.1) (placed_in_reading_order doc) ≡ items_in_reading_order doc }
{}

/// A list of names changes as an index does: by a new name wherever it stands, and by a name that is taken out. A name
/// that stands behind the same one changes nothing. So an index that agrees with a list goes on to agree with it.
pub fn changes_are_followed()
    ensures added { (before behind : List Named) (named : Named) → found (before ++ behind) named.kind named.name ≡ None
        → Sets (before ++ behind) (before ++ named ∷ behind) named.kind named.name (Some named.par) }
    ensures repeated { (before behind : List Named) (named : Named) (par : ParId) → found before named.kind named.name ≡ Some par
        → Agree (before ++ behind) (before ++ named ∷ behind) }
    ensures dropped { (names : List Named) (kind : NameKind) (name : List ℕ)
        → Sets names (filter (λ named. not (is_same_name kind name named.kind named.name)) names) kind name None }
    ensures followed { (index later names others : List Named) (kind : NameKind) (name : List ℕ) (par : Option ParId)
        → Agree index names → Sets index later kind name par → Sets names others kind name par → Agree later others }
{}
