// What the names of a script's folders are.
ghost use Rattle.ngx_cli.specs.Naming.{FoldersHaveTheirNames};

/// The names by which a script's configurations include others are those of its folders, each once, in byte order.
pub fn folders_have_their_names()
    ensures { FoldersHaveTheirNames }
{}
