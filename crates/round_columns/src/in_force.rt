//! The master that would be in force if only stated masters counted.

ghost use Rattle.std.specs.Prelude.{◌≡◌, ◌++◌, ◌∷◌, [], List, option_copied, unwrap_or, if◌then◌else◌, None};
ghost use Rattle.doc_model.specs.declared.style.Family.TheVariants as family;
ghost use Rattle.doc_model.specs.declared.paragraph.Par.{out-Par};
ghost use Rattle.doc_model.specs.declared.document.Document.{Document};
ghost use Rattle.style_model.specs.Effective.{stated_master as master_of_style};
ghost use Rattle.style_model.specs.Masters.{AreMastersThere};
ghost use Rattle.page_model.specs.BodyRows.{stated_master as place_stated};
ghost use Rattle.format_model.specs.Keys.{Standing, is_hidden, par_of};
ghost use Rattle.round_columns.specs.InForce.{IsInForce};

use doc_model::{Master, Name, PageLayout};
use page_style::next_master;
use round_styles::{columns_at, stated_master};

/// The master that would be in force if only stated masters counted, and the columns of its pages.
#[derive(Debug, Clone, Copy)]
pub struct InForce {
    /// The place of the master among the masters, from 0.
    pub master: Option<usize>,
    /// The columns of its pages.
    pub columns: u32,
}

impl InForce {
    /// In front of all paragraphs it is the master of a first page.
    pub fn first(masters: &[Master], layouts: &[PageLayout]) -> InForce
        requires { AreMastersThere masters.now }
        ensures { (doc : Document) → masters.now ≡ doc.masters → layouts.now ≡ doc.layouts → IsInForce doc [] result }
    {
        let master = next_master(masters, None);
        InForce {
            master,
            columns: columns_at(masters, layouts, master),
        }
    }

    /// Behind one paragraph more it is the one that this states, if it is shown and states one.
    pub fn behind(
        self,
        masters: &[Master],
        layouts: &[PageLayout],
        hidden: bool,
        stated: Option<&Name>,
    ) -> InForce
        ensures { (doc : Document) (before : List Standing) (one : Standing) → masters.now ≡ doc.masters → layouts.now ≡ doc.layouts → IsInForce doc before self → hidden ≡ is_hidden one → option_copied stated.entry ≡ master_of_style doc.styles family.Paragraph (out-Par (par_of one)).style → IsInForce doc (before ++ one ∷ []) result }
    {
        match brought(masters, hidden, stated) {
            Some(place) => InForce {
                master: Some(place),
                columns: columns_at(masters, layouts, Some(place)),
            },
            None => self,
        }
    }
}

/// The place of the master that a paragraph states, if it is shown.
fn brought(masters: &[Master], hidden: bool, stated: Option<&Name>) -> Option<usize>
    ensures { result ≡ (if hidden then None else place_stated masters.now (option_copied stated.entry)) }
{
    if hidden {
        return None;
    }
    stated_master(masters, stated)
}
