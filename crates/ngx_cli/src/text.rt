// Reads a file whole.
ghost use Rattle.std.specs.Prelude.{◌≡◌, true, IfOk};
ghost use Rattle.file_tree.specs.Tree.{text_of};
ghost use Rattle.ngx_outside.specs.Causes.{HasCause};
ghost use Rattle.ngx_outside.specs.declared.files.FileFault.TheVariants.{Failed};

use byte_text::ByteText;
use file_tree::Node;
use ngx_outside::{FileFault, Files};
use std::alloc::Global;

/// The text of a file of the newest tree; no bytes where nothing that can be read is at the path.
pub fn read_text<F: Files>(alloc: Global, files: &mut F, path: &[u8]) -> Result<ByteText, FileFault>
    ensures text { (F.seen files.old).tells ≡ true →
        IfOk result (λ t. t ≡ text_of
        ((F.seen files.old).trees (F.seen files.old).newest path.now)) }
    ensures tells { (F.seen files.new).tells ≡ (F.seen files.old).tells }
    ensures cause { HasCause (F.seen files.old).faults (F.seen files.new).faults result Failed }
{
    let newest = files.version();
    let mut text = ByteText::new(alloc);
    match files.stat(path, newest)? {
        Node::File { len, date: _ } => {
            files.read(path, 0, len, newest, &mut text)?;
            Ok(text)
        }
        Node::Folder => Ok(text),
        Node::Locked => Ok(text),
        Node::Missing => Ok(text),
    }
}
