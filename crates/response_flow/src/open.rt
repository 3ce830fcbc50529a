// A page begins.
ghost use Rattle.std.specs.Prelude.{◌≡◌, IfOk, List, [], Some, None, if◌then◌else◌};
ghost use Rattle.file_tree.specs.Tree.{Trees, text_of};
ghost use Rattle.access_flow.specs.node_turn.Stages.{item_asked};
ghost use Rattle.request_flow.specs.Sents.{known_tree};
ghost use Rattle.ngx_pattern.specs.Pattern.{Pattern as SetPattern};
ghost use Rattle.request_flow.specs.Pages.{IsTold};
ghost use Rattle.response_flow.specs.Opens.{Opens, bytes_known, file_text};

use crate::flight::PageFlow;
use byte_text::{ByteText, OutOfMemory};
use file_tree::Ask;
use page_response::Pages;
use request_flow::family_rest::{reached_stays_well, row_tells_still, steps_keep_still};
use request_flow::race_meaning::shipped_are_fit;
use request_flow::reply_out::InPhases;
use request_flow::request_phases::Ground;
use request_flow::{FileAt, Known, PageHead, PageStart};
use std::alloc::Global;
use subrequests::{Decided, Family};

/// The job that told what is known of the files; where nothing is known yet, one that asks nothing.
/// The number of the tree, and what is known of the file's bytes: all, or none.
struct Source {
    ask: Ask,
    tree: u64,
    known: ByteText,
}

fn source_of(alloc: Global, known: Known) -> Source
    ensures text { (trees : Trees)
        → text_of (item_asked trees result.ask) ≡ file_text known trees }
    ensures known { result.known ≡ bytes_known known }
    ensures tree { result.tree ≡ known_tree known }
{
    match known {
        Known::Nothing { of } => Source {
            ask: Ask::Stat {
                path: ByteText::new(alloc),
                of,
            },
            tree: of,
            known: ByteText::new(alloc),
        },
        Known::Told(FileAt { ask, text, .. }) => {
            let tree = match &ask {
                Ask::Stat { path: _, of } => *of,
                Ask::Read {
                    path: _,
                    start: _,
                    count: _,
                    of,
                } => *of,
            };
            Source {
                ask,
                tree,
                known: text,
            }
        }
    }
}

/// Begins the page of a request on whose body filters act, with its bytes in this room.
///
/// # Errors
/// `OutOfMemory`.
pub(crate) fn opened(
    alloc: Global,
    ground: &Ground<'_>,
    start: PageStart,
    room: Vec<u8>,
) -> Result<PageFlow, OutOfMemory>
    requires told { IsTold start.page }
    ensures opens { (patterns : List SetPattern) → IfOk result (λ p.
        Opens patterns ground.now start p.pages.value) }
    ensures by { IfOk result (λ p. (p.server ≡ start.request.value.server)
        × (p.length ≡ start.request.value.length)) }
    ensures kind { IfOk result (λ p. p.pages.value.outgoing.block
        ≡ (if start.page.chunked then Some [] else None)) }
{
    reached_stays_well();
    row_tells_still();
    steps_keep_still();
    shipped_are_fit();
    let PageStart {
        request,
        page,
        closing: _,
        level: _,
    } = start;
    let PageHead {
        outcome,
        known,
        head,
        chunked,
        status,
    } = page;
    let InPhases {
        phases,
        vars,
        terms: _,
        server,
        length,
        questions: _,
        opened,
    } = Box::into_inner(request);
    let Source { ask, tree, known } = source_of(alloc, known);
    let decided = Decided {
        outcome,
        ask,
        tree,
        known,
        opened,
    };
    let family = Family::begin(alloc, ground, phases, vars, decided)?;
    let pages = Pages::begin(alloc, family, head.as_slice(), chunked, status, room)?;
    Ok(PageFlow {
        pages: Box::new(alloc, pages)?,
        server,
        length,
    })
}
