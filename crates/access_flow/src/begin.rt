// A subrequest is asked whether a main request is let in.
ghost use Rattle.std.specs.Prelude.{◌≡◌, ◌+◌, ◌*◌, ◌≤◌, [], List, IfOk, None, true, false};
ghost use Rattle.file_tree.specs.Tree.{Trees};
ghost use Rattle.http_types.specs.declared.words.Method.TheVariants.{Get as GetMethod};
ghost use Rattle.ngx_pattern.specs.Pattern.{Pattern as SetPattern};
ghost use Rattle.ngx_variables.specs.declared.request.Role.TheVariants.{Auth as AuthRole};
ghost use Rattle.request_meaning.specs.Laws.{shipped};
ghost use Rattle.node_turn.specs.request_phases.Rounds.{world_in};
ghost use Rattle.request_flow.specs.Pages.{access_rest};
ghost use Rattle.request_flow.specs.Reached.{StepReached};
ghost use Rattle.node_turn.specs.request_phases.declared.state.Step.TheVariants.{Calls as ToCall};
ghost use Rattle.access_flow.specs.Flows.{IsOfTree, IsOpened, access_left, steps_left};
ghost use Rattle.access_flow.specs.Reached.{AccessReached};
ghost use Rattle.request_flow.specs.Flows.{flow_most};

use crate::flow::{AccessFlow, Stage};
use byte_text::{ByteText, OutOfMemory};
use file_tree::Ask;
use http_moment::LocalDate;
use http_types::{Addr, Method, Version};
use ngx_variables::{Groups, Main, Request, Role};
use node_turn::lend;
use node_turn::request_phases::{Ground, Phases};
use node_turn::rewrite_code::Progress;
use req_head::HeadFields;
use request_flow::AccessStart;
use std::alloc::Global;
use std::net::{IpAddr, Ipv4Addr};

/// A main request of which nothing is known but its method.
fn blank_main(alloc: Global, method: Method) -> Main
    ensures { result.method ≡ method }
{
    let nobody = Addr {
        ip: IpAddr::V4(Ipv4Addr::new(0, 0, 0, 0)),
        port: 0,
    };
    Main {
        asked: Method::Get,
        method,
        version: Version::V11,
        target: ByteText::new(alloc),
        host: ByteText::new(alloc),
        server_name: ByteText::new(alloc),
        local: nobody,
        peer: nobody,
        moment: 0,
        tree: 0,
        date: LocalDate::of(0),
        fields: HeadFields::new(alloc),
        folder: ByteText::new(alloc),
    }
}

/// The phases of the subrequest before they begin: it comes from inside, is asked with GET, and no level holds for it yet.
fn inner_phases(alloc: Global, level: u32, method: Method, path: ByteText) -> Phases
    ensures main { result.main.method ≡ method }
    ensures asked { (result.at.request ≡ record {
      method = GetMethod;
      path = path;
      args = [];
      groups = [];
      place = None;
      role = AuthRole;
    }) × (result.at.inside ≡ true) × (result.error ≡ None) × (result.closes ≡ false)
        × (result.changes ≡ 10) }
{
    Phases {
        main: blank_main(alloc, method),
        at: Progress {
            request: Request {
                method: Method::Get,
                path,
                args: ByteText::new(alloc),
                groups: Groups::new(alloc),
                place: None,
                role: Role::Auth,
            },
            level,
            inside: true,
            seeks: false,
        },
        changes: 10,
        error: None,
        closes: false,
        role: Role::Auth,
    }
}

fn copied(method: &Method) -> Result<Method, OutOfMemory>
    ensures { IfOk result (λ copy. copy ≡ method.now) }
{
    let copy = method.clone()?;
    Ok(copy)
}

/// The subrequest is asked; its phases haven't begun.
///
/// # Errors
/// `OutOfMemory`; the request is then not to be answered.
pub fn asks(
    alloc: Global,
    ground: &Ground<'_>,
    start: AccessStart,
) -> Result<Box<AccessFlow>, OutOfMemory>
    ensures goes { (patterns : List SetPattern) (trees : Trees) →
        let w = world_in patterns ground.now shipped in
        let site = ground.now.site.now in
        IfOk result (λ f. IsOpened (access_left w patterns site trees f.value)
        (access_rest w patterns site trees start)) }
    ensures reached { (patterns : List SetPattern) →
        let w = world_in patterns ground.now shipped in
        let site = ground.now.site.now in
        StepReached w patterns site start.request.value (ToCall start.path) 0
        → IfOk result (λ f. AccessReached w patterns site f.value) }
    ensures by { IfOk result (λ f. (f.value.request.value.server ≡ start.request.value.server)
        × (f.value.request.value.length ≡ start.request.value.length)) }
    ensures opened { IfOk result (λ f. f.value.request.value.opened
        ≡ start.request.value.opened + 1) }
    ensures few { IfOk result (λ f. f.value.request.value.opened ≤ 255) }
    ensures asked { IfOk result (λ f. (f.value.of ≡ start.of) × IsOfTree f.value) }
    ensures lowers { IfOk result (λ f. steps_left f.value
        ≡ flow_most + 2 * start.request.value.questions + 2) }
{
    let AccessStart {
        request,
        path,
        of,
        closing: _,
    } = start;
    let mut request = request;
    let inside = &mut *request;
    if inside.opened == u8::MAX {
        return Err(OutOfMemory);
    }
    inside.opened += 1;
    let method = copied(&inside.phases.main.method)?;
    let mut inner = inner_phases(alloc, ground.server.level, method, path);
    lend(&mut inside.phases.main, &mut inner);
    let flow = AccessFlow {
        request,
        inner,
        ask: Ask::Stat {
            path: ByteText::new(alloc),
            of,
        },
        of,
        stage: Stage::Begins,
    };
    Ok(Box::new(alloc, flow)?)
}
