// A document: what it keeps between its parts, and what it shares with the request that it answers.
ghost use Rattle.std.specs.Prelude.{◌≡◌, ℕ, Bool, List, Option, IfOk, Some, None, unwrap_or};
ghost use Rattle.acts.specs.Vars.{Vars};
ghost use Rattle.http_moment.specs.Shown.{default_format};
ghost use Rattle.site_whole.specs.site_views.Values.{Values};
ghost use Rattle.ssi_text.specs.declared.part.Part.{Part as PartView};
ghost use Rattle.request_meaning.specs.Documents.{Doc, begun, default_message, error_text, is_live, live_oops, oops};
ghost use Rattle.ssi_values.specs.Known.{filled_text, known_seen, named_text, truth_of, truth_seen};
ghost use Rattle.ssi_exec.specs.declared.document.Scene.{Scene as SceneView};
ghost use Rattle.ssi_exec.specs.Scenes.{branch_seen, doc_seen, known_at, served_act, values_of, written};

use byte_text::{ByteText, OutOfMemory};
use http_moment::DEFAULT_FORMAT;
use ngx_variables::{Main, Request, VarTable};
use site_whole::site_model::{Level, Server, Site};
use ssi_values::{Sight, Table, Truth, condition, filled, named_value};
use std::alloc::Global;

/// The text that is written where a directive fails, unless `config` sets another.
const DEFAULT_MESSAGE: &[u8] = b"[an error occurred while processing the directive]";

/// What a document shares with the request that it answers: the main request and the request; the site, the level that
/// answers and its server; and how many levels of subrequests may still be opened.
#[derive(Clone, Copy)]
pub struct Scene<'a> {
    pub main: &'a Main,
    pub request: &'a Request,
    pub site: &'a Site,
    pub level: &'a Level,
    pub server: &'a Server,
    pub left: u32,
}

/// The `if` that is open: whether the text here is live, whether a branch of it was taken, and whether `else` was seen.
#[derive(Clone, Copy)]
pub enum Branch {
    NoIf,
    InIf { live: bool, taken: bool, last: bool },
}

/// A block that is open, with its bytes so far.
#[derive(Drop)]
pub struct OpenBlock {
    pub(crate) name: ByteText,
    pub(crate) bytes: ByteText,
}

/// A document of server side includes, between two of its parts: its own variables; the error text and the format of dates
/// where they were set; its blocks, and the one that is open; and the `if` that is open.
#[derive(Drop)]
pub struct Document {
    pub(crate) ssi: Table,
    pub(crate) message: Option<ByteText>,
    pub(crate) format: Option<ByteText>,
    pub(crate) blocks: Table,
    pub(crate) block: Option<OpenBlock>,
    pub(crate) branch: Branch,
}

/// A content subrequest of a document: its path and its arguments; the variables with which its own document begins; the text
/// that takes its place where it fails or is empty; and whether the document waits for its end.
#[derive(Drop)]
pub struct Child {
    pub path: ByteText,
    pub args: ByteText,
    pub ssi: Table,
    pub stub: Option<ByteText>,
    pub waited: bool,
}

/// What is done for a part of a document, at its place.
#[derive(Drop)]
pub enum Served {
    /// Nothing.
    Nothing,
    /// The part's own text is written.
    Same,
    /// This text is written, which may be empty.
    Text(ByteText),
    /// The body of a subrequest is here.
    Includes(Child),
    /// A subrequest is asked, and its body goes to `Document::captured` under this name.
    Captures { name: ByteText, child: Child },
}

impl Served {
    pub(crate) fn of(text: Option<ByteText>) -> Self
        ensures { (part : PartView) (doc : Doc)
            → served_act part result doc ≡ written text doc }
    {
        match text {
            Some(text) => Served::Text(text),
            None => Served::Nothing,
        }
    }
}

impl Document {
    /// A document that begins with these variables of its own.
    #[tactic(auto, unfolding(request_meaning::specs::Documents::begun))]
    pub fn new(alloc: Global, ssi: Table) -> Self
        ensures { (scene : SceneView) → doc_seen scene result
            ≡ begun scene.main.now scene.request.now (values_of scene) scene.left ssi }
    {
        Document {
            ssi,
            message: None,
            format: None,
            blocks: Table::new(alloc),
            block: None,
            branch: Branch::NoIf,
        }
    }

    #[tactic(auto, unfolding(request_meaning::specs::Documents::default_message))]
    fn message(&self) -> &[u8]
        ensures { result.now ≡ unwrap_or self.now.message default_message }
    {
        match &self.message {
            Some(message) => message.as_slice(),
            None => DEFAULT_MESSAGE,
        }
    }

    #[tactic(auto, unfolding(http_moment::specs::Shown::default_format))]
    fn format(&self) -> &[u8]
        ensures { result.now ≡ unwrap_or self.now.format default_format }
    {
        match &self.format {
            Some(format) => format.as_slice(),
            None => DEFAULT_FORMAT,
        }
    }

    /// What its names are looked up in.
    pub(crate) fn sight<'a>(&'a self, scene: &Scene<'a>, vars: &'a VarTable) -> Sight<'a>
        ensures { known_seen result ≡ known_at scene.now self.now vars.now }
    {
        Sight {
            main: scene.main,
            request: scene.request,
            format: self.format(),
            ssi: &self.ssi,
            visible: &scene.server.visible,
            vars,
        }
    }

    /// The value of a name.
    pub(crate) fn named(
        &self,
        alloc: Global,
        scene: &Scene<'_>,
        vars: &VarTable,
        name: &[u8],
    ) -> Result<Option<ByteText>, OutOfMemory>
        ensures { IfOk result (λ value.
            value ≡ named_text (known_at scene.now self.now vars.now) name.now) }
    {
        let value = named_value(alloc, &self.sight(scene, vars), name)?;
        Ok(value)
    }

    /// A text with its variables filled in.
    pub(crate) fn filled_in(
        &self,
        alloc: Global,
        scene: &Scene<'_>,
        vars: &VarTable,
        text: &[u8],
    ) -> Result<Option<ByteText>, OutOfMemory>
        ensures { IfOk result (λ value.
            value ≡ filled_text (known_at scene.now self.now vars.now) text.now) }
    {
        let value = filled(alloc, &self.sight(scene, vars), text)?;
        Ok(value)
    }

    /// What a condition says.
    pub(crate) fn truth_of(
        &self,
        alloc: Global,
        scene: &Scene<'_>,
        vars: &VarTable,
        text: &[u8],
    ) -> Result<Truth, OutOfMemory>
        ensures { IfOk result (λ truth.
            truth_seen truth ≡ truth_of (known_at scene.now self.now vars.now) text.now) }
    {
        let truth = condition(alloc, &self.sight(scene, vars), text)?;
        Ok(truth)
    }

    /// Whether text at this place is written.
    pub(crate) fn is_live(&self) -> bool
        ensures { result ≡ is_live (branch_seen self.now.branch) }
    {
        match self.branch {
            Branch::NoIf => true,
            Branch::InIf { live, .. } => live,
        }
    }

    /// The error text, which `ssi_silent_errors` leaves away.
    #[tactic(auto, unfolding(request_meaning::specs::Documents::error_text, site_whole::specs::Whole::values_seen))]
    pub(crate) fn error_text(
        &self,
        alloc: Global,
        scene: &Scene<'_>,
    ) -> Result<ByteText, OutOfMemory>
        ensures { IfOk result (λ text. text ≡ error_text (doc_seen scene.now self.now)) }
    {
        if scene.level.silent {
            return Ok(ByteText::new(alloc));
        }
        let text = ByteText::from_slice(alloc, self.message())?;
        Ok(text)
    }

    /// The error text where text is live.
    #[tactic(auto, unfolding(request_meaning::specs::Documents::live_oops, request_meaning::specs::Documents::oops))]
    pub(crate) fn live_oops(
        &self,
        alloc: Global,
        scene: &Scene<'_>,
    ) -> Result<Option<ByteText>, OutOfMemory>
        ensures { IfOk result (λ text.
            live_oops (doc_seen scene.now self.now) ≡ written text (doc_seen scene.now self.now)) }
    {
        if !self.is_live() {
            return Ok(None);
        }
        let text = self.error_text(alloc, scene)?;
        Ok(Some(text))
    }

    /// The error text, whether text is live or not.
    #[tactic(auto, unfolding(request_meaning::specs::Documents::oops))]
    pub(crate) fn oops(
        &self,
        alloc: Global,
        scene: &Scene<'_>,
    ) -> Result<Option<ByteText>, OutOfMemory>
        ensures { IfOk result (λ text.
            oops (doc_seen scene.now self.now) ≡ written text (doc_seen scene.now self.now)) }
    {
        let text = self.error_text(alloc, scene)?;
        Ok(Some(text))
    }
}
