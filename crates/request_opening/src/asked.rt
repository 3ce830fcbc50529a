// What a request's head asks for.
ghost use Rattle.std.specs.Prelude.{◌≡◌, OnOk, List, ℕ};
ghost use Rattle.ngx_pattern.specs.Pattern.{Pattern as SetPattern};
ghost use Rattle.request_phases.specs.pattern_search.Found.{patterns_seen};
ghost use Rattle.site_whole.specs.Whole.{server_whole};
ghost use Rattle.answers_meaning.specs.Asking.{target_of as target_meant, request_of};
ghost use Rattle.request_opening.specs.Openings.{main_at, phases_at, main_with};

use crate::slot::put;
use byte_text::{ByteText, OutOfMemory};
use http_moment::LocalDate;
use http_types::{Addr, Method, Version};
use ngx_variables::{Groups, Main, Request, Role};
use req_head::{Head, HeadFields, HeadRoom};
use request_phases::rewrite_code::Progress;
use request_phases::{Ground, Phases};
use site_whole::site_model::Server;
use std::alloc::Global;
use std::mem::replace;
use std::net::{IpAddr, Ipv4Addr};
use uri_text::{UriFault, normal};

/// What a main request starts with: its head, the two ends of its connection, the moment in seconds since 1970, the number of
/// the tree of files from which it is answered, and how many requests came before it on the connection.
#[derive(Drop)]
pub struct Opening {
    pub head: Head,
    pub local: Addr,
    pub peer: Addr,
    pub moment: u64,
    pub tree: u64,
    pub before: u64,
}

/// Writes a text in place of another, which mostly is the same.
#[inline(always)]
fn put_text(text: &mut ByteText, bytes: &[u8]) -> Result<(), OutOfMemory>
    ensures { OnOk result (text.new ≡ bytes.now) }
{
    if text.as_slice() == bytes {
        return Ok(());
    }
    text.clear();
    text.extend(bytes)?;
    Ok(())
}

/// The path and the arguments of a head's target. A head whose target names no path is refused before; it would name an empty
/// one.
#[tactic(auto, unfolding(answers_meaning::specs::Asking::target_of, site_whole::specs::Whole::server_whole))]
fn put_target(
    server: &Server,
    head: &Head,
    path: &mut ByteText,
    args: &mut ByteText,
) -> Result<(), OutOfMemory>
    ensures { (patterns : List SetPattern) (site : _) → OnOk result ((path.new, args.new)
        ≡ target_meant (server_whole (patterns_seen patterns) site server.now) head.now) }
{
    match normal(head.target.as_slice(), server.merge, path, args) {
        Ok(()) => Ok(()),
        Err(UriFault::OutOfMemory) => Err(OutOfMemory),
        Err(_) => Ok(()),
    }
}

/// The main request, before any level holds for it, in place of another.
#[tactic(auto, unfolding(answers_meaning::specs::Asking::request_of))]
fn put_request(server: &Server, head: &Head, request: &mut Request) -> Result<(), OutOfMemory>
    ensures { (patterns : List SetPattern) (site : _) → OnOk result (request.new
        ≡ request_of (server_whole (patterns_seen patterns) site server.now) head.now) }
{
    put_target(server, head, &mut request.path, &mut request.args)?;
    let method = head.method.clone()?;
    put(&mut request.method, method);
    put(&mut request.place, None);
    request.groups.clear();
    request.role = Role::Main;
    Ok(())
}

/// What the variables of a main request mean, in place of those of another: what is made anew of it.
fn put_texts(ground: &Ground<'_>, head: &Head, main: &mut Main) -> Result<(), OutOfMemory>
    ensures { OnOk result (main.new ≡ record main.old {
      asked = head.now.method;
      server_name = ground.now.server.now.first_name;
      folder = ground.now.site.now.folder;
    }) }
{
    let asked = head.method.clone()?;
    put(&mut main.asked, asked);
    put_text(&mut main.server_name, ground.server.first_name.as_slice())?;
    put_text(&mut main.folder, ground.site.folder.as_slice())?;
    Ok(())
}

/// The rest of it, which is taken over. The texts of the other become room for a next head.
fn put_opening(opening: Opening, main: &mut Main, room: &mut HeadRoom)
    ensures { main.new ≡ main_with opening main.old }
{
    let head = opening.head;
    put(&mut main.method, head.method);
    let target = replace(&mut main.target, head.target);
    let host = replace(&mut main.host, head.host);
    let fields = replace(&mut main.fields, head.fields);
    room.keep(target, host, fields);
    main.version = head.version;
    main.local = opening.local;
    main.peer = opening.peer;
    main.moment = opening.moment;
    main.tree = opening.tree;
    main.date = LocalDate::of(opening.moment);
}

/// Where the phases of a main request begin.
fn put_start(level: u32, phases: &mut Phases)
    ensures { phases.new ≡ phases_at level phases.old.main phases.old.at.request }
{
    phases.at.level = level;
    phases.at.inside = false;
    phases.at.seeks = false;
    phases.changes = 10;
    phases.error = None;
    phases.closes = false;
    phases.role = Role::Main;
}

/// The phases of a main request, before they begin, in place of another's: what its variables mean, and the request, for
/// which no level holds yet. The texts of the other's head become room for a next one.
pub fn put_phases(
    ground: &Ground<'_>,
    opening: Opening,
    phases: &mut Phases,
    room: &mut HeadRoom,
) -> Result<(), OutOfMemory>
    ensures { (patterns : List SetPattern) (site : _) → OnOk result (phases.new
        ≡ phases_at ground.now.server.now.level (main_at ground.now opening)
        (request_of (server_whole (patterns_seen patterns) site ground.now.server.now)
        opening.head)) }
{
    let made = put_request(ground.server, &opening.head, &mut phases.at.request);
    let told = put_texts(ground, &opening.head, &mut phases.main);
    put_opening(opening, &mut phases.main, room);
    put_start(ground.server.level, phases);
    made?;
    told?;
    Ok(())
}

/// Room for a request. It has the texts of none.
pub fn blank(alloc: Global) -> Phases {
    let nobody = Addr {
        ip: IpAddr::V4(Ipv4Addr::new(0, 0, 0, 0)),
        port: 0,
    };
    Phases {
        main: Main {
            asked: Method::Get,
            method: Method::Get,
            version: Version::V11,
            target: ByteText::new(alloc),
            host: ByteText::new(alloc),
            server_name: ByteText::new(alloc),
            local: nobody,
            peer: nobody,
            moment: 0,
            tree: 0,
            date: LocalDate::of(0),
            fields: HeadFields::new(alloc),
            folder: ByteText::new(alloc),
        },
        at: Progress {
            request: Request {
                method: Method::Get,
                path: ByteText::new(alloc),
                args: ByteText::new(alloc),
                groups: Groups::new(alloc),
                place: None,
                role: Role::Main,
            },
            level: 0,
            inside: false,
            seeks: false,
        },
        changes: 0,
        error: None,
        closes: false,
        role: Role::Main,
    }
}
