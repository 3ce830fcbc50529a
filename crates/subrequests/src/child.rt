// The node of a subrequest.
ghost use Rattle.std.specs.Prelude.{◌≡◌, ℕ, List, [], IfOk, OnOk, Some, None, true, false, is_some, slice_get, unwrap_or, if◌then◌else◌};
ghost use Rattle.http_types.specs.declared.words.Method.TheVariants.{Get as GetMethod};
ghost use Rattle.ngx_variables.specs.declared.request.Role.TheVariants.{Content as ContentRole};
ghost use Rattle.ngx_pattern.specs.Pattern.{Pattern as SetPattern};
ghost use Rattle.ngx_variables.specs.declared.request.Main.{Main as MainView};
ghost use Rattle.request_meaning.specs.Replies.{script};
ghost use Rattle.request_meaning.specs.Serving.{World};
ghost use Rattle.site_model.specs.declared.site.Site.{Site as SiteRow};
ghost use Rattle.node_line.specs.ssi_exec.Scenes.{child_seen};
ghost use Rattle.node_line.specs.node_turn.Stages.{node_act};
ghost use Rattle.subrequests.specs.Families.{IsInnerOpened, IsPushed, place_for, reads_text};
ghost use Rattle.node_line.specs.node_turn.Nodes.{of_method};
ghost use Rattle.node_line.specs.node_turn.declared.node.Node.{Node as NodeView};

use crate::returning::take_text;
use byte_text::{ByteText, OutOfMemory};
use family_nodes::Nodes;
use file_tree::Ask;
use http_moment::LocalDate;
use http_types::{Addr, Method, Version};
use ngx_variables::{Groups, Main, Request, Role};
use node_line::node_turn::{Node, Place, Stage, Withheld, take};
use node_line::request_phases::Phases;
use node_line::rewrite_code::Progress;
use node_line::ssi_exec::Child;
use req_head::HeadFields;
use std::alloc::Global;
use std::net::{IpAddr, Ipv4Addr};

/// A main request of which nothing is known but its method.
pub(crate) fn blank_main(alloc: Global, method: Method) -> Main
    ensures { result.method ≡ method }
{
    let nobody = Addr {
        ip: IpAddr::V4(Ipv4Addr::new(0, 0, 0, 0)),
        port: 0,
    };
    Main {
        asked: Method::Get,
        method,
        version: Version::V11,
        target: ByteText::new(alloc),
        host: ByteText::new(alloc),
        server_name: ByteText::new(alloc),
        local: nobody,
        peer: nobody,
        moment: 0,
        tree: 0,
        date: LocalDate::of(0),
        fields: HeadFields::new(alloc),
        folder: ByteText::new(alloc),
    }
}

/// The phases of a subrequest before they begin: it comes from inside, is asked with GET, and no
/// level holds for it yet
/// (<https://nginx.org/en/docs/dev/development_guide.html#http_subrequests>). Of its main request
/// it has the method alone.
pub(crate) fn child_phases(
    alloc: Global,
    level: u32,
    method: Method,
    path: ByteText,
    args: ByteText,
) -> Phases
    ensures main { result.main.method ≡ method }
    ensures asked { (result.at.request ≡ record {
      method = GetMethod;
      path = path;
      args = args;
      groups = [];
      place = None;
      role = ContentRole;
    }) × (result.at.inside ≡ true) × (result.error ≡ None) × (result.closes ≡ false) ×
        (result.changes ≡ 10) }
{
    Phases {
        main: blank_main(alloc, method),
        at: Progress {
            request: Request {
                method: Method::Get,
                path,
                args,
                groups: Groups::new(alloc),
                place: None,
                role: Role::Content,
            },
            level,
            inside: true,
            seeks: false,
        },
        changes: 10,
        error: None,
        closes: false,
        role: Role::Content,
    }
}

fn copied(method: &Method) -> Result<Method, OutOfMemory>
    ensures { IfOk result (λ copy. copy ≡ method.now) }
{
    let copy = method.clone()?;
    Ok(copy)
}

/// Where the bytes of a subrequest go whose body is captured, or that has this stub, or none.
fn place_of(alloc: Global, stub: Option<ByteText>, captured: bool) -> Place
    ensures { result ≡ place_for captured stub }
{
    if captured {
        return Place::Captured {
            stub,
            text: Withheld::new(alloc),
        };
    }
    match stub {
        Some(stub) => Place::Stub {
            stub,
            text: Withheld::new(alloc),
        },
        None => Place::Row,
    }
}

/// The node of a subrequest before its phases begin, whose body is captured after these bytes of its
/// parent, or isn't.
fn child_node(
    alloc: Global,
    level: u32,
    method: Method,
    parent: u32,
    left: u32,
    child: Child,
    captured: Option<Withheld>,
) -> Node
    ensures left { result.left ≡ left }
    ensures over { result.over ≡ false }
    ensures parent { result.parent ≡ parent }
    ensures asks { result.asks ≡ None }
    ensures fresh { reads_text result.stage ≡ false }
    ensures place { result.place ≡ place_for (is_some captured) child.stub }
    ensures before { result.before ≡ unwrap_or captured [] }
    ensures acts { (w : World) (patterns : List SetPattern) (site : SiteRow) (main : MainView)
        (text : List ℕ) → node_act w patterns site main result text
        ≡ script w left (child_seen (of_method method main) child) }
{
    let Child {
        path,
        args,
        ssi,
        stub,
        waited: _,
    } = child;
    let is_captured = captured.is_some();
    let before = captured.unwrap_or(Withheld::new(alloc));
    Node {
        parent,
        left,
        children: 0,
        waits: None,
        asks: None,
        place: place_of(alloc, stub, is_captured),
        before,
        phases: child_phases(alloc, level, method, path, args),
        ask: Ask::Stat {
            path: ByteText::new(alloc),
            of: 0,
        },
        start: 0,
        stage: Stage::Begins(ssi),
        over: false,
    }
}

/// Puts the node of a subrequest, which the node with this number asks for, after the other nodes.
/// Its body is captured after these bytes of that node, or isn't.
pub(crate) fn push_child(
    alloc: Global,
    level: u32,
    nodes: &mut Nodes,
    at: u32,
    child: Child,
    captured: Option<Withheld>,
) -> Result<(), OutOfMemory>
    ensures { OnOk result ((n : NodeView) → slice_get nodes.old at ≡ Some n
        → IsPushed nodes.old nodes.new at (place_for (is_some captured) child.stub)
        (unwrap_or captured []) n child) }
{
    let Some(node) = nodes.as_slice().get(at as usize) else {
        return Err(OutOfMemory);
    };
    let left = node.left.saturating_sub(1);
    let method = copied(&node.phases.main.method)?;
    nodes.push(child_node(alloc, level, method, at, left, child, captured))?;
    Ok(())
}

/// A node has one more subrequest, for whose end it waits or doesn't.
pub(crate) fn put_child(node: &mut Node, id: u32, waited: bool)
    ensures others { node.new ≡ record node.old {
      children = node.new.children;
      waits = node.new.waits;
    } }
    ensures waits { node.new.waits ≡ (if waited then Some id else node.old.waits) }
{
    node.children = node.children.saturating_add(1);
    if waited {
        node.waits = Some(id);
    }
}

/// A node that takes up the bytes of its subrequests has one more, for whose end it waits or doesn't: the
/// bytes that come before those of that.
pub(crate) fn put_inner(
    alloc: Global,
    node: &mut Node,
    id: u32,
    waited: bool,
) -> Result<Withheld, OutOfMemory>
    ensures opened { IfOk result (λ before. IsInnerOpened node.old node.new before) }
    ensures waits { OnOk result
        (node.new.waits ≡ (if waited then Some id else node.old.waits)) }
{
    let before = take_text(alloc, &mut node.place)?;
    put_child(node, id, waited);
    Ok(before)
}

/// A node has one more subrequest, for whose body it waits.
pub(crate) fn put_asks(node: &mut Node, id: u32)
    ensures { node.new ≡ record node.old { children = node.new.children; asks = Some id } }
{
    node.children = node.children.saturating_add(1);
    node.asks = Some(id);
}
