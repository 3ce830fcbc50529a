// A node is told what it asked for.
ghost use Rattle.std.specs.Prelude.{◌≡◌, ◌≤◌, ◌+◌, ◌++◌, ◌||◌, List, ℕ, [], IfOk, IfSome, None, OnOk, true, false, length};
ghost use Rattle.file_tree.specs.Tree.{IsFrom, Trees, is_fitting};
ghost use Rattle.file_tree.specs.declared.job.JobAnswer.TheVariants.{Read as ReadView};
ghost use Rattle.ngx_pattern.specs.Pattern.{Pattern as SetPattern};
ghost use Rattle.ngx_variables.specs.declared.request.Main.{Main as MainView};
ghost use Rattle.node_line.specs.request_meaning.Serving.{World};
ghost use Rattle.node_line.specs.request_phases.declared.state.Phases.{Phases as PhasesView};
ghost use Rattle.site_model.specs.declared.site.Site.{Site as SiteRow};
ghost use Rattle.node_line.specs.node_turn.Stages.{IsSameNode, asks_from, is_asking, is_reading, node_act, text_in};
ghost use Rattle.node_line.specs.node_turn.Nodes.{asked_path, hand, lent, stage_act};
ghost use Rattle.family_nodes.specs.Told.{Hears};
ghost use Rattle.node_line.specs.node_turn.declared.node.Stage.TheVariants.{Reads as ReadsView, Told as ToldView};

use byte_text::{ByteText, OutOfMemory};
use file_tree::{Ask, Found, JobAnswer};
use node_line::node_turn::{Body, Node, Stage, fill, take};
use node_line::request_phases::Wait;
use node_line::ssi_values::Table;
use std::alloc::Global;

/// Whether the job of a node waits for an answer.
pub(crate) fn waits(stage: &Stage) -> bool
    ensures { result ≡ (is_asking stage.now || is_reading stage.now) }
{
    match stage {
        Stage::Begins(_) => false,
        Stage::Asks { wait: _, ssi: _ } => true,
        Stage::Told {
            wait: _,
            file: _,
            ssi: _,
        } => false,
        Stage::Places(_) => false,
        Stage::Serves(_) => false,
        Stage::Reads(_) => true,
        Stage::Captures(_) => false,
        Stage::Ends(_) => false,
    }
}

/// Whether a job asks for a block of its file from `start` on.
fn reads_from(ask: &Ask, start: u64) -> bool
    ensures { result ≡ asks_from ask.now start }
{
    match ask {
        Ask::Stat { path: _, of: _ } => false,
        Ask::Read {
            path: _,
            start: begin,
            count: _,
            of: _,
        } => *begin == start,
    }
}

/// A body to which these bytes of its file came.
fn with_more(body: Box<Body>, bytes: &[u8]) -> Result<Box<Body>, OutOfMemory>
    requires { length bytes.now ≤ body.value.source.left }
    ensures text { IfOk result (λ b. b.value.source.text ≡ body.value.source.text ++ bytes.now) }
    ensures left { IfOk result (λ b. b.value.source.left + length bytes.now
        ≡ body.value.source.left) }
    ensures others { IfOk result (λ b. (b.value.answered ≡ body.value.answered)
        × (b.value.page ≡ body.value.page)) }
{
    let mut body = body;
    body.source.text.extend(bytes)?;
    body.source.left -= bytes.len() as u64;
    body.source.unread = false;
    Ok(body)
}

/// A body whose bytes that are placed next are the text of its source.
fn placing(alloc: Global, body: Box<Body>) -> Box<Body>
    ensures hand { hand result.value ≡ body.value.source.text }
    ensures text { result.value.source.text ≡ [] }
    ensures left { result.value.source.left ≡ body.value.source.left }
    ensures others { (result.value.answered ≡ body.value.answered)
        × (result.value.page ≡ body.value.page) }
{
    let mut body = body;
    let text = take(&mut body.source.text, ByteText::new(alloc));
    body.from = 0;
    body.bytes = text;
    body
}

/// Whether filters make a page of a body.
fn has_page(body: &Body) -> bool
    ensures { result ≡ false → body.now.page ≡ None }
{
    match &body.page {
        Some(_) => true,
        None => false,
    }
}

/// Where these bytes of its file came to a body that asked for them: bytes that are placed next, or
/// that its page takes up.
fn came(alloc: Global, body: Box<Body>, bytes: &[u8]) -> Result<Stage, OutOfMemory>
    requires { length bytes.now ≤ body.value.source.left }
    ensures { IfOk result (λ stage. (w : World) (patterns : List SetPattern) (site : SiteRow)
        (p : PhasesView) (levels : ℕ) (path text : List ℕ) →
        stage_act w patterns site p levels path (ReadsView body) (bytes.now ++ text)
        ≡ stage_act w patterns site p levels path stage text) }
{
    let body = with_more(body, bytes)?;
    if has_page(&body) {
        return Ok(Stage::Serves(body));
    }
    Ok(Stage::Places(placing(alloc, body)))
}

/// The sum of two numbers, where that is one.
fn sum(a: u64, b: u64) -> Option<u64>
    ensures { IfSome result (λ sum. sum ≡ a + b) }
{
    a.checked_add(b)
}

/// A node is told what is at the path for which it asked.
fn put_told(node: &mut Node, wait: Wait, file: Found, ssi: Table)
    ensures { node.new ≡ record node.old { stage = ToldView wait file ssi; start = 0 } }
{
    fill(&mut node.stage, Stage::Told { wait, file, ssi });
    node.start = 0;
}

/// A block of its file came to a node.
fn put_block(
    alloc: Global,
    node: &mut Node,
    body: Box<Body>,
    bytes: &[u8],
) -> Result<(), OutOfMemory>
    ensures node { OnOk result (IsSameNode node.old node.new) }
    ensures place { OnOk result (node.new.place ≡ node.old.place) }
    ensures acts { OnOk result ((w : World) (patterns : List SetPattern) (site : SiteRow)
        (main : MainView) (text : List ℕ) →
        stage_act w patterns site (lent main node.old.phases) node.old.left
        (asked_path node.old.ask) (ReadsView body) (bytes.now ++ text)
        ≡ node_act w patterns site main node.new text) }
    ensures file { OnOk result ((trees : Trees) → IsFrom trees node.old.ask (ReadView bytes.entry)
        → bytes.now ++ text_in trees node.new ≡ text_in trees node.old) }
{
    let count = bytes.len() as u64;
    if !reads_from(&node.ask, node.start) || body.source.left < count {
        return Err(OutOfMemory);
    }
    let Some(start) = sum(node.start, count) else {
        return Err(OutOfMemory);
    };
    node.start = start;
    fill(&mut node.stage, came(alloc, body, bytes)?);
    Ok(())
}

/// A node is told what it asked for: what is at its path, or a block of its file.
pub fn hears(alloc: Global, node: &mut Node, answer: JobAnswer<'_>) -> Result<(), OutOfMemory>
    requires { is_fitting node.old.ask answer ≡ true }
    ensures node { OnOk result (IsSameNode node.old node.new) }
    ensures place { OnOk result (node.new.place ≡ node.old.place) }
    ensures acts { OnOk result ((w : World) (patterns : List SetPattern) (site : SiteRow)
        (main : MainView) → Hears node.old.ask answer.entry (λ trees. text_in trees node.old)
        (λ trees. text_in trees node.new) (node_act w patterns site main node.old)
        (node_act w patterns site main node.new)) }
{
    let stage = take(&mut node.stage, Stage::Begins(Table::new(alloc)));
    match (stage, answer) {
        (Stage::Asks { wait, ssi }, JobAnswer::Stat(there, text)) => {
            let file = Found::new(alloc, there, text)?;
            put_told(node, wait, file, ssi);
            Ok(())
        }
        (Stage::Reads(body), JobAnswer::Read(bytes)) => Ok(put_block(alloc, node, body, bytes)?),
        _ => Err(OutOfMemory),
    }
}
