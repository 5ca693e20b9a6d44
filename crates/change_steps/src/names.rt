//! Laws of new files, of links, of renames and of deletions: their refusals for names, and what they ask for behind that.
ghost use Rattle.change_steps.specs.NameChanges.{CreateFindsName, CreateFindsNoId, CreateAsks, LinkFindsNoFile, LinkFindsName, LinkAsks, RenameFindsNoFile, RenameAsks, DeleteFindsNoFile, DeleteAsks};

/// A new file is refused where another one has its name, then where no id is left. Else it asks for its record, and
/// answers the next id.
pub fn create_ends()
    ensures named { CreateFindsName }
    ensures ids_end { CreateFindsNoId }
    ensures asks { CreateAsks }
{}

/// A link is refused where no file has the old name, then where one has the new name. Else it asks for its record.
pub fn link_ends()
    ensures missing { LinkFindsNoFile }
    ensures named { LinkFindsName }
    ensures asks { LinkAsks }
{}

/// A rename is refused where no file has the old name. Else it asks for its record.
pub fn rename_ends()
    ensures missing { RenameFindsNoFile }
    ensures asks { RenameAsks }
{}

/// A deletion is refused where no file has the name. Else it asks for its record.
pub fn delete_ends()
    ensures missing { DeleteFindsNoFile }
    ensures asks { DeleteAsks }
{}
