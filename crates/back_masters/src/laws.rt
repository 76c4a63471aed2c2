//! What masters are read as.

ghost use Rattle.doc_model.specs.declared.page_layout.Master.{Master};
ghost use Rattle.load_model.specs.Styles.{Names};
ghost use Rattle.back_masters.specs.Masters.{IsReadableMaster, IsMasterBack};

/// A master is read as itself with its header and footer, and nothing is left out.
pub fn masters_are_read_back()
    ensures { (names : Names) (master : Master) → IsReadableMaster names master → IsMasterBack names master }
{}
