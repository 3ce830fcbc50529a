// What is answered for a file.
ghost use Rattle.std.specs.Prelude.{◌≡◌};
ghost use Rattle.static_content.specs.Content.{content_for, folder_for, node_for, refusal_of};

use file_tree::Node;
use http_types::Method;

/// What is answered for a URI, by what is at its path.
#[derive(Clone, Copy, Debug, PartialEq, Eq)]
pub enum Content {
    /// The file's bytes.
    Send,
    /// An error with this status.
    Status(u16),
    /// A redirect to the URI with a slash at its end.
    Slash,
}

/// The status of a method that no file is served to. It is asked before any file.
pub fn refusal_of(method: &Method) -> Option<u16>
    ensures { result ≡ refusal_of method.now }
{
    match method {
        Method::Get | Method::Head | Method::Post => None,
        Method::Other(_) => Some(405),
    }
}

/// A URI that ends in a slash names a folder, whose files are not listed.
fn folder_for(node: Node) -> Content
    ensures { result ≡ folder_for node }
{
    match node {
        Node::Folder => Content::Status(403),
        Node::File { .. } | Node::Locked | Node::Missing => Content::Status(404),
    }
}

fn node_for(node: Node, method: &Method) -> Content
    ensures { result ≡ node_for node method.now }
{
    match (node, method) {
        (Node::Missing, _) => Content::Status(404),
        (Node::Locked, _) => Content::Status(403),
        (Node::Folder, _) => Content::Slash,
        (Node::File { .. }, Method::Get | Method::Head) => Content::Send,
        (Node::File { .. }, Method::Post | Method::Other(_)) => Content::Status(405),
    }
}

/// What is answered for a URI, by what is at its path: a method that no file is served to is refused first. Where the
/// URI ends in a slash an index file was sought already; without one a folder is redirected to.
#[tactic(auto, unfolding(crate::specs::Content::content_for))]
pub fn decide(node: Node, method: &Method, ends_in_slash: bool) -> Content
    ensures { result ≡ content_for node method.now ends_in_slash }
{
    if let Some(status) = refusal_of(method) {
        return Content::Status(status);
    }
    if ends_in_slash {
        return folder_for(node);
    }
    node_for(node, method)
}
