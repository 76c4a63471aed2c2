//! A law of the columns of paragraphs without a page. Its function does nothing.

ghost use Rattle.std.specs.Prelude.{◌≡◌, ◌++◌, ◌∷◌, [], List};
ghost use Rattle.doc_model.specs.declared.document.Document.{Document};
ghost use Rattle.format_model.specs.Keys.{Standing, body_row_pars, columns_without_page, par_of, row_par};
ghost use Rattle.round_pars.specs.Pars.{AreNumbersDistinct};
ghost use Rattle.round_columns.specs.declared.in_force.InForce.{InForce};
ghost use Rattle.round_columns.specs.InForce.{IsInForce};

/// A paragraph has the columns that are in force behind the one by whose body rows it is set, where no number is that of two
/// paragraphs.
pub fn columns_are_those_in_force()
    ensures { (doc : Document) (before after : List Standing) (own one : Standing) (force : InForce) → AreNumbersDistinct doc → body_row_pars doc ≡ before ++ own ∷ after → par_of own ≡ row_par one → IsInForce doc (before ++ own ∷ []) force → force.columns ≡ columns_without_page doc one }
{}
