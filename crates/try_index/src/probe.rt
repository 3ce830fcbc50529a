// The file of a name.
ghost use Rattle.std.specs.Prelude.{◌≡◌, ◌++◌, false, IfOk, Err, MatchOption};
ghost use Rattle.target_text.specs.ngx_variables.Texts.{value_text, is_too_long};
ghost use Rattle.try_index.specs.Searches.{IsNotThere, IsThere, IsUnfit, is_file, is_folder as folder_node};

use byte_text::ByteText;
use file_tree::Node;
use std::alloc::Global;
use target_text::file_path::path_of;
use target_text::ngx_variables::{EvalFault, FileRoot, Main, Request, Value, VarTable};

/// What names are tried over: the place of the level's files, the main request, the request, and the variables.
#[derive(Clone, Copy)]
pub struct Scene<'a> {
    pub place: &'a FileRoot,
    pub main: &'a Main,
    pub request: &'a Request,
    pub vars: &'a VarTable,
}

/// A path of the site, and the path of its file.
#[derive(Drop)]
pub struct Turn {
    pub uri: ByteText,
    pub path: ByteText,
}

/// A name is evaluated and put after the front of its path; none where no file can be there.
pub fn turn_of(
    alloc: Global,
    front: &[u8],
    name: &Value,
    place: &FileRoot,
    main: &Main,
    request: &Request,
    vars: &VarTable,
) -> Result<Option<Turn>, EvalFault>
    ensures ok { IfOk result (λ turn. MatchOption turn
        (IsNotThere main.now request.now vars.now place.now front.now name.now)
        (IsThere main.now request.now vars.now place.now front.now name.now)) }
    ensures too_long { result ≡ Err EvalFault.TooLong
        → IsUnfit main.now request.now vars.now place.now front.now name.now }
{
    let mut uri = ByteText::from_slice(alloc, front)?;
    name.eval(alloc, main, request, vars, &mut uri)?;
    let mut path = ByteText::new(alloc);
    let there = path_of(alloc, place, uri.as_slice(), main, request, vars, &mut path)?;
    if !there {
        return Ok(None);
    }
    Ok(Some(Turn { uri, path }))
}

/// A node counts as a file, also where it may not be read.
pub fn is_file(node: Node) -> bool
    ensures { result ≡ is_file node }
{
    match node {
        Node::File { .. } | Node::Locked => true,
        Node::Folder | Node::Missing => false,
    }
}

pub fn is_folder(node: Node) -> bool
    ensures { result ≡ folder_node node }
{
    match node {
        Node::Folder => true,
        Node::File { .. } | Node::Locked | Node::Missing => false,
    }
}
