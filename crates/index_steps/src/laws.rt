//! Indexes that agree with the names of edited documents. This function does nothing.

ghost use Rattle.std.specs.Prelude.{◌≡◌, ℕ, Bool, false, List};
ghost use Rattle.doc_model.specs.declared.paragraph.ParId.{ParId};
ghost use Rattle.edit_rules.specs.Edited.{Edited};
ghost use Rattle.name_index.specs.declared.names.NameKind.{NameKind};
ghost use Rattle.name_index.specs.declared.names.Named.{Named};
ghost use Rattle.name_index.specs.Names.{found, Agree};
ghost use Rattle.name_index.specs.Scan.{names_of};
ghost use Rattle.row_edits.specs.Sound.{IsSound};
ghost use Rattle.names_change.specs.Leading.{leads_to, Redirects};

/// An index that agrees with some names goes on to agree where both are redirected alike. No name leads to the next number.
pub fn indexes_agree_again()
    ensures redirected { (index later names others : List Named) (which : NameKind → List ℕ → Bool) (from to : ParId)
        → Agree index names → Redirects which from to index later → Redirects which from to names others → Agree later others }
    ensures new { (old : Edited) → IsSound old → (kind : NameKind) (name : List ℕ) → leads_to (record { 0 = old.next }) (found (names_of old.document) kind name) ≡ false }
{}
