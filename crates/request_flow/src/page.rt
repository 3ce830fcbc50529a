// A request on whose body filters act: its head is made, and its body is left to a family of nodes.
ghost use Rattle.std.specs.Prelude.{◌≡◌, ◌&&◌, not, IfOk, None, true};
ghost use Rattle.file_tree.specs.Tree.{Trees};
ghost use Rattle.ngx_pattern.specs.Pattern.{Pattern as SetPattern};
ghost use Rattle.request_meaning.specs.Laws.{shipped};
ghost use Rattle.request_meaning.specs.Responses.{framing, is_chunked as chunks};
ghost use Rattle.reply_out.specs.request_phases.Rounds.{world_in};
ghost use Rattle.reply_out.specs.request_phases.declared.state.Step.TheVariants.{Answers as ToAnswer};
ghost use Rattle.request_flow.specs.Pages.{page_rest};
ghost use Rattle.request_flow.specs.Rests.{Follows};
ghost use Rattle.request_flow.specs.Sents.{known_bytes, known_len, known_tree, step_rest, with_length as told_length};
ghost use Rattle.std.specs.Prelude.{List, ℕ, Some};

use crate::flow::Onward;
use crate::steps::{Known, closes, length_in, with_length};
use byte_text::{ByteText, OutOfMemory};
use http_types::Version;
use reply_out::request_phases::{Conclusion, Ground};
use reply_out::request_reply::{Reply, reply_of};
use reply_out::{InPhases, Terms, Workspace, head_alone, stays};
use site_model::Level;
use std::alloc::Global;

/// The head of the response to a request on whose body filters act, and what the body is made of:
/// what its phases decided, with what is known of the files; whether the body comes in chunks, or
/// ends with the connection; and the status.
#[derive(Drop)]
pub struct PageHead {
    pub outcome: Conclusion,
    pub known: Known,
    pub head: ByteText,
    pub chunked: bool,
    pub status: u16,
}

/// A request on whose body filters act, and of which nothing is sent yet; whether the connection
/// closes after it, and the number of the level that answers.
#[derive(Drop)]
pub struct PageStart {
    pub request: Box<InPhases>,
    pub page: PageHead,
    pub closing: bool,
    pub level: u32,
}

/// A request that asks a subrequest whether it is let in
/// (<https://nginx.org/en/docs/http/ngx_http_auth_request_module.html>): the path of that, and the
/// number of the tree that it is served from; whether the connection closes after the response.
#[derive(Drop)]
pub struct AccessStart {
    pub request: Box<InPhases>,
    pub path: ByteText,
    pub of: u64,
    pub closing: bool,
}

/// What became of a request that went on.
#[derive(Drop)]
pub enum Went {
    On(Onward),
    /// A subrequest decides on its access.
    Asks(AccessStart),
    /// Filters act on its body: a family of nodes makes that.
    Page(Box<PageStart>),
}

/// Whether server side includes or additions are named at a level
/// (<https://nginx.org/en/docs/http/ngx_http_ssi_module.html>, ngx_http_addition_module.html).
fn names_filters(level: &Level) -> bool {
    level.ssi || level.before.is_some() || level.after.is_some()
}

fn copied(alloc: Global, outcome: &Conclusion) -> Result<Conclusion, OutOfMemory>
    ensures { IfOk result (λ copy. copy ≡ outcome.now) }
{
    match outcome {
        Conclusion::Text { code, text } => Ok(Conclusion::Text {
            code: *code,
            text: ByteText::from_slice(alloc, text.as_slice())?,
        }),
        Conclusion::File { len, date } => Ok(Conclusion::File {
            len: *len,
            date: *date,
        }),
        Conclusion::Page(code) => Ok(Conclusion::Page(*code)),
        Conclusion::Redirect { code, to: None } => Ok(Conclusion::Redirect {
            code: *code,
            to: None,
        }),
        Conclusion::Redirect { code, to: Some(to) } => Ok(Conclusion::Redirect {
            code: *code,
            to: Some(ByteText::from_slice(alloc, to.as_slice())?),
        }),
        Conclusion::Close => Ok(Conclusion::Close),
    }
}

/// Whether a filter acts on the body of what phases decided, where its level names some. It is a function of its own since few levels do.
#[inline(never)]
fn is_filtered(
    alloc: Global,
    ground: &Ground<'_>,
    request: &InPhases,
    outcome: &Conclusion,
) -> Result<bool, OutOfMemory> {
    let reply = reply_of(alloc, ground.site, &request.phases, copied(alloc, outcome)?)?;
    Ok(reply.facts.is_some())
}

/// Whether a filter acts on the body of what phases decided.
#[inline(always)]
pub(crate) fn composes(
    alloc: Global,
    ground: &Ground<'_>,
    request: &InPhases,
    outcome: &Conclusion,
) -> Result<bool, OutOfMemory> {
    if !names_filters(ground.site.level(request.phases.at.level)) {
        return Ok(false);
    }
    is_filtered(alloc, ground, request, outcome)
}

/// Whether a body comes in chunks (RFC 9112, section 7.1).
fn is_chunked(known: bool, version: Version) -> bool
    ensures { result ≡ chunks (framing known version) }
{
    if known {
        return false;
    }
    match version {
        Version::V10 => false,
        Version::V11 => true,
    }
}

/// Whether a body is sent.
fn is_sent(terms: Terms, reply: &Reply<'_>) -> bool
    ensures { result ≡ (not terms.no_body && not reply.now.gone) }
{
    !terms.no_body && !reply.gone
}

/// A page, and what becomes of the connection after it.
#[derive(Drop)]
pub(crate) struct Composed {
    pub(crate) page: PageHead,
    pub(crate) closing: bool,
    pub(crate) level: u32,
}

/// Makes the head of the response to what phases decided, whose body filters make. Where no body is
/// sent there is no page: there is no memory for it.
#[inline(never)]
pub(crate) fn compose(
    space: &mut Workspace,
    ground: &Ground<'_>,
    request: &InPhases,
    outcome: Conclusion,
    known: Known,
    closing: bool,
) -> Result<Composed, OutOfMemory>
    ensures goes { (patterns : List SetPattern) (trees : Trees) (out : List ℕ) →
        let w = world_in patterns ground.now shipped in
        let site = ground.now.site.now in
        IfOk result (λ o. Follows site
        (step_rest w patterns site (trees (known_tree known)) request.now (ToAnswer outcome)
        (known_bytes known trees))
        (page_rest w patterns site (trees (known_tree known)) request.now o.page
        (known_bytes known trees)) out out closing o.closing None (Some o.level)) }
    ensures known { IfOk result (λ o. o.page.known ≡ known) }
    ensures outcome { IfOk result (λ o. o.page.outcome ≡ told_length (known_len known) outcome) }
    ensures closes { IfOk result (λ o. closing ≡ true → o.closing ≡ true) }
    ensures kept { space.new.patterns ≡ space.old.patterns }
{
    let number = request.phases.at.level;
    let level = ground.site.level(number);
    let terms = request.terms;
    let outcome = with_length(length_in(&known), outcome);
    let copy = copied(space.alloc, &outcome)?;
    let reply = reply_of(space.alloc, ground.site, &request.phases, copy)?;
    if !is_sent(terms, &reply) {
        return Err(OutOfMemory);
    }
    let keep = stays(terms, level, &reply);
    let chunked = is_chunked(reply.known, terms.version);
    let status = reply.status;
    let head = head_alone(space, reply, terms, chunked, keep)?;
    Ok(Composed {
        page: PageHead {
            outcome,
            known,
            head,
            chunked,
            status,
        },
        closing: closes(closing, keep),
        level: number,
    })
}
