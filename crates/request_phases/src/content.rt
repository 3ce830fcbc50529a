// The precontent and content phases: `try_files`, `index` and static files
// (<https://nginx.org/en/docs/http/ngx_http_core_module.html#try_files>, ngx_http_index_module.html).
ghost use Rattle.std.specs.Prelude.{◌≡◌, ℕ, List, false, true, None, Some, IfOk, unwrap_or};
ghost use Rattle.file_tree.specs.Tree.{Item, node_of, text_of};
ghost use Rattle.file_tree.specs.declared.job.Node.TheVariants.{Missing};
ghost use Rattle.request_meaning.specs.file_path.Located.{located_at};
ghost use Rattle.site_model.specs.Levels.{raw_level};
ghost use Rattle.try_index.specs.site_whole.Whole.{tries_seen, index_at as index_stated};
ghost use Rattle.static_content.specs.Content.{content_for, refusal_of as refused_for};
ghost use Rattle.request_meaning.specs.Rewriting.{is_redirect as redirects};
ghost use Rattle.request_meaning.specs.Contents.{content_outcome, folder_target as folder_moved, content as content_of, precontent as precontent_of, file as file_of, no_index as folder_of, ends_in_slash as slash_last};
ghost use Rattle.try_index.specs.Searches.{try_told, index_told};
ghost use Rattle.rewrite_code.specs.Places.{standing_seen};
ghost use Rattle.ngx_pattern.specs.Pattern.{Pattern as SetPattern};
ghost use Rattle.request_phases.specs.Located.{sought_seen, last_word};
ghost use Rattle.request_phases.specs.Rounds.{IsGround, decision_seen};
ghost use Rattle.request_phases.specs.Turns.{Reaches};

use crate::ground::Ground;
use crate::lists::index_at;
use crate::state::{Decision, Reached, Search, Wait};
use byte_text::{ByteText, OutOfMemory};
use file_tree::Node;
use ngx_pattern::PatternSet;
use ngx_variables::{EvalFault, Main, Request, VarTable};
use request_meaning::file_path::path_of;
use rewrite_code::Progress;
use site_model::{Site, Tries};
use static_content::{Content, decide, refusal_of};
use std::alloc::Global;
use try_index::target_text::item_settles;
use try_index::{IndexState, IndexStep, Scene, TryState, TryStep};
use uri_text::escaped;

fn is_redirect(code: u16) -> bool
    ensures { result ≡ redirects code }
{
    code == 301 || code == 302 || code == 303 || code == 307 || code == 308
}

/// What the last word of `try_files` says where it is a code.
fn last_code(code: u16) -> Decision
    ensures { result ≡ last_word code }
{
    if is_redirect(code) {
        return Decision::Redirect { code, to: None };
    }
    Decision::Error(code)
}

/// Where the file of a path of the site is.
#[derive(Drop)]
pub(crate) enum Sought {
    TooLong,
    Nowhere,
    At(ByteText),
}

/// Where the level puts a path of the site.
#[inline(always)]
fn seek(
    alloc: Global,
    site: &Site,
    main: &Main,
    at: &Progress,
    vars: &VarTable,
) -> Result<Sought, OutOfMemory>
    ensures { IfOk result (λ sought. sought_seen sought
        ≡ located_at main.now at.now.request vars.now (raw_level site.now at.now.level).place
        at.now.request.path) }
{
    let mut path = ByteText::new(alloc);
    let place = &site.level(at.level).place;
    let uri = at.request.path.as_slice();
    match path_of(alloc, place, uri, main, &at.request, vars, &mut path) {
        Ok(true) => Ok(Sought::At(path)),
        Ok(false) => Ok(Sought::Nowhere),
        Err(EvalFault::TooLong) => Ok(Sought::TooLong),
        Err(EvalFault::OutOfMemory) => Err(OutOfMemory),
    }
}

/// The path of a folder with a slash at its end, as an address has it, and the arguments.
#[tactic(auto, unfolding(request_meaning::specs::Contents::folder_target))]
fn folder_target(alloc: Global, request: &Request) -> Result<ByteText, OutOfMemory>
    ensures { IfOk result (λ to. to ≡ folder_moved request.now) }
{
    let mut to = ByteText::new(alloc);
    escaped(request.path.as_slice(), &mut to)?;
    to.push(b'/')?;
    if !request.args.is_empty() {
        to.push(b'?')?;
        to.extend(request.args.as_slice())?;
    }
    Ok(to)
}

/// What is decided for a request by what is at the path of its file.
pub(crate) fn on_node(alloc: Global, request: &Request, node: Node) -> Result<Decision, OutOfMemory>
    ensures { IfOk result (λ decision. (item : Item) → node_of item ≡ node
        → decision_seen (text_of item) decision
        ≡ content_outcome request.now item
        (content_for (node_of item) request.now.method false)) }
{
    match decide(node, &request.method, false) {
        Content::Send => match node {
            Node::File { len, date } => Ok(Decision::File { len, date }),
            Node::Folder => Ok(Decision::Error(404)),
            Node::Locked => Ok(Decision::Error(404)),
            Node::Missing => Ok(Decision::Error(404)),
        },
        Content::Status(code) => Ok(Decision::Error(code)),
        Content::Slash => Ok(Decision::Redirect {
            code: 301,
            to: Some(folder_target(alloc, request)?),
        }),
    }
}

/// The request's own file, for a method that files are served to.
#[inline(always)]
fn file(
    alloc: Global,
    ground: &Ground<'_>,
    main: &Main,
    at: &Progress,
    vars: &VarTable,
) -> Result<Reached, OutOfMemory>
    requires { refused_for at.now.request.method ≡ None }
    ensures { IfOk result (λ reached. (patterns : List SetPattern) (bytes : List ℕ)
        → Reaches patterns ground.now main.now
        (λ w a. file_of a.main (standing_seen ground.now.site.now at.now))
        vars.now bytes at.now reached vars.now) }
{
    item_settles();
    match seek(alloc, ground.site, main, at, vars)? {
        Sought::At(path) => Ok(Reached::Waits {
            wait: Wait::File,
            path,
        }),
        Sought::Nowhere => Ok(Reached::Decides(Decision::Error(404))),
        Sought::TooLong => Ok(Reached::Decides(Decision::Error(500))),
    }
}

/// Whether the folder is there, of which no index was found.
#[inline(never)]
fn folder(
    alloc: Global,
    ground: &Ground<'_>,
    main: &Main,
    at: &Progress,
    vars: &VarTable,
) -> Result<Reached, OutOfMemory>
    ensures { IfOk result (λ reached. (patterns : List SetPattern) (bytes : List ℕ)
        → Reaches patterns ground.now main.now
        (λ w a. folder_of a.main (standing_seen ground.now.site.now at.now))
        vars.now bytes at.now reached vars.now) }
{
    item_settles();
    match seek(alloc, ground.site, main, at, vars)? {
        Sought::At(path) => Ok(Reached::Waits {
            wait: Wait::Folder,
            path,
        }),
        Sought::Nowhere => Ok(Reached::Decides(Decision::Error(404))),
        Sought::TooLong => Ok(Reached::Decides(Decision::Error(500))),
    }
}

/// The names of `index` that come next, by what is at the path of the last.
#[inline(never)]
pub(crate) fn index(
    alloc: Global,
    ground: &Ground<'_>,
    state: IndexState,
    answer: Option<Node>,
    main: &Main,
    at: &Progress,
    vars: &VarTable,
) -> Result<Reached, OutOfMemory>
    requires { IsGround ground.now }
    ensures { IfOk result (λ reached. (item : Item) → node_of item ≡ unwrap_or answer Missing
        → (patterns : List SetPattern) (bytes : List ℕ) → Reaches patterns ground.now main.now
        (λ w a. let s = standing_seen ground.now.site.now at.now in
        index_told a.main s s.values.index state item)
        vars.now bytes at.now reached vars.now) }
{
    let mut state = state;
    let level = ground.site.level(at.level);
    let names = index_at(ground.site, ground.index, level.index);
    let scene = Scene {
        place: &level.place,
        main,
        request: &at.request,
        vars,
    };
    match state.next(alloc, answer, names, &scene) {
        Ok(IndexStep::Probe(path)) => Ok(Reached::Waits {
            wait: Wait::Index(state),
            path,
        }),
        Ok(IndexStep::Redirect(path)) => {
            let args = ByteText::from_slice(alloc, at.request.args.as_slice())?;
            Ok(Reached::Decides(Decision::Inside { path, args }))
        }
        Ok(IndexStep::NoneFound) => Ok(folder(alloc, ground, main, at, vars)?),
        Err(EvalFault::TooLong) => Ok(Reached::Decides(Decision::Error(500))),
        Err(EvalFault::OutOfMemory) => Err(OutOfMemory),
    }
}

fn ends_in_slash(path: &[u8]) -> bool
    ensures { result ≡ slash_last path.now }
{
    match path {
        [.., last] => *last == b'/',
        [] => false,
    }
}

/// The content phase: the method is asked before any file; a path that ends in a slash names a folder.
#[inline(always)]
pub(crate) fn content(
    alloc: Global,
    ground: &Ground<'_>,
    main: &Main,
    at: &Progress,
    vars: &VarTable,
) -> Result<Reached, OutOfMemory>
    requires { IsGround ground.now }
    ensures { IfOk result (λ reached. (patterns : List SetPattern) (bytes : List ℕ)
        → Reaches patterns ground.now main.now
        (λ w a. content_of a.main (standing_seen ground.now.site.now at.now))
        vars.now bytes at.now reached vars.now) }
{
    if let Some(code) = refusal_of(&at.request.method) {
        return Ok(Reached::Decides(Decision::Error(code)));
    }
    if ends_in_slash(at.request.path.as_slice()) {
        return Ok(index(alloc, ground, IndexState::new(), None, main, at, vars)?);
    }
    Ok(file(alloc, ground, main, at, vars)?)
}

/// The names of `try_files` that come next, by what is at the path of the last.
#[inline(never)]
pub(crate) fn try_names(
    alloc: Global,
    ground: &Ground<'_>,
    tries: &Tries,
    search: Search,
    main: &Main,
    at: &mut Progress,
    vars: &VarTable,
) -> Result<Reached, OutOfMemory>
    requires ground { IsGround ground.now }
    requires stated { (raw_level ground.now.site.now at.old.level).tries ≡ Some tries.now }
    ensures { IfOk result (λ reached. (item : Item) → node_of item ≡ unwrap_or search.answer Missing
        → (patterns : List SetPattern) (bytes : List ℕ) → Reaches patterns ground.now main.now
        (λ w a. try_told a.main (standing_seen ground.now.site.now at.old) (tries_seen tries.now)
        search.state item)
        vars.now bytes at.new reached vars.now) }
{
    let Search { mut state, answer } = search;
    let place = &ground.site.level(at.level).place;
    let scene = Scene {
        place,
        main,
        request: &at.request,
        vars,
    };
    match state.next(alloc, answer, tries, &scene) {
        Ok(TryStep::Probe(path)) => Ok(Reached::Waits {
            wait: Wait::Try(state),
            path,
        }),
        Ok(TryStep::Use(path)) => {
            at.request.path = path;
            Ok(content(alloc, ground, main, at, vars)?)
        }
        Ok(TryStep::Redirect { path, args }) => {
            Ok(Reached::Decides(Decision::Inside { path, args }))
        }
        Ok(TryStep::Named(name)) => Ok(Reached::Decides(Decision::Named(name))),
        Ok(TryStep::Status(code)) => Ok(Reached::Decides(last_code(code))),
        Err(EvalFault::TooLong) => Ok(Reached::Decides(Decision::Error(500))),
        Err(EvalFault::OutOfMemory) => Err(OutOfMemory),
    }
}

/// The precontent phase, and the content phase after it.
#[inline(always)]
pub(crate) fn precontent(
    alloc: Global,
    ground: &Ground<'_>,
    main: &Main,
    at: &mut Progress,
    vars: &VarTable,
) -> Result<Reached, OutOfMemory>
    requires { IsGround ground.now }
    ensures { IfOk result (λ reached. (patterns : List SetPattern) (bytes : List ℕ)
        → Reaches patterns ground.now main.now
        (λ w a. precontent_of a.main (standing_seen ground.now.site.now at.old))
        vars.now bytes at.new reached vars.now) }
{
    match &ground.site.level(at.level).tries {
        None => Ok(content(alloc, ground, main, at, vars)?),
        Some(tries) => {
            let search = Search {
                state: TryState::new(),
                answer: None,
            };
            Ok(try_names(alloc, ground, tries, search, main, at, vars)?)
        }
    }
}
