// A page, and the blocks of its file.
ghost use Rattle.std.specs.Prelude.{◌≡◌, ℕ, ◌-◌, ◌++◌, ◌&&◌, not, Bool, true, false, List, [], IfOk, OnOk, None, Some};
ghost use Rattle.acts.specs.Act.{Write};
ghost use Rattle.family_meaning.specs.request_meaning.Laws.{shipped};
ghost use Rattle.family_meaning.specs.request_meaning.Serving.{Answer, World};
ghost use Rattle.ssi_exec.specs.declared.document.Scene.{Scene as SceneView};
ghost use Rattle.page_body.specs.Pages.{AsksByLevel, DoesNext, IsOf, IsOver, adds, filtered_rest, is_finished, page_captured, page_rest, parts_left, splits, stop_at, stop_of, text_then, waits};

use crate::doing::{Doing, idle, part_done};
use crate::parts::{block_parts, is_added, is_split, last_parts, opening_parts};
use byte_text::{ByteText, OutOfMemory};
use filter_api::Facts;
use ngx_variables::VarTable;
use ssi_exec::ssi_values::Table;
use ssi_exec::{Document, Scene};
use ssi_text::{Part, SsiState};
use std::alloc::Global;

/// The body of a page on which filters act, between two of its parts. Blocks of its file come by `feed`, and its end by
/// `finish`, each once no part waits; `next` takes up the parts that they make, one after another. What contracts see of it is
/// what it still does, where certain bytes of its file are still to come (`page_rest`).
///
/// After want of memory a page is fit to be dropped alone.
#[derive(Drop)]
pub struct Page {
    pub(crate) document: Document,
    pub(crate) facts: Facts,
    pub(crate) split: SsiState,
    // The parts that wait, the next one last, so that it is taken with no copy of the others.
    pub(crate) parts: Vec<Part>,
    pub(crate) finished: bool,
}

impl Page {
    /// A page of which these facts hold, whose document begins with these variables of its own.
    pub fn new(alloc: Global, facts: &Facts, ssi: Table) -> Result<Page, OutOfMemory>
        ensures begins { IfOk result (λ page. (scene : SceneView) (w : World) (answer : Answer)
            (bytes : List ℕ) → IsOf scene answer → w.members ≡ shipped
            → filtered_rest w scene.left ssi answer facts.now bytes
            ≡ Write [] (page_rest w answer scene page bytes)) }
        ensures unfinished { IfOk result (λ page. is_finished page ≡ false) }
    {
        let parts = opening_parts(alloc, is_added(facts))?;
        Ok(Page {
            document: Document::new(alloc, ssi),
            facts: *facts,
            split: SsiState::new(alloc),
            parts,
            finished: false,
        })
    }

    /// Whether parts wait.
    pub fn waits(&self) -> bool
        ensures { result ≡ waits self.now }
    {
        !self.parts.is_empty()
    }

    /// Whether the file has come to its end.
    pub fn is_finished(&self) -> bool
        ensures { result ≡ is_finished self.now }
    {
        self.finished
    }

    fn splits(&self) -> bool
        ensures { result ≡ splits self.now }
    {
        !self.finished && is_split(&self.facts)
    }

    fn adds(&self) -> bool
        ensures { result ≡ adds self.now }
    {
        !self.finished && is_added(&self.facts)
    }

    /// A block of the file came.
    pub fn feed(&mut self, alloc: Global, block: ByteText) -> Result<(), OutOfMemory>
        requires { waits self.old ≡ false }
        ensures comes { OnOk result ((scene : SceneView) (w : World) (answer : Answer)
            (more : List ℕ) → w.members ≡ shipped
            → page_rest w answer scene self.old (block ++ more)
            ≡ page_rest w answer scene self.new more) }
        ensures stays { OnOk result (is_finished self.new ≡ is_finished self.old) }
    {
        let is_split = self.splits();
        block_parts(alloc, &mut self.split, is_split, block, &mut self.parts)?;
        self.parts.reverse();
        Ok(())
    }

    /// The file has come to its end.
    pub fn finish(&mut self, alloc: Global) -> Result<(), OutOfMemory>
        requires { waits self.old ≡ false }
        ensures ends { OnOk result ((scene : SceneView) (w : World) (answer : Answer)
            → w.members ≡ shipped
            → page_rest w answer scene self.old [] ≡ page_rest w answer scene self.new []) }
        ensures finished { OnOk result (is_finished self.new ≡ true) }
    {
        let is_split = self.splits();
        let is_added = self.adds();
        last_parts(alloc, &mut self.split, is_split, is_added, &mut self.parts)?;
        self.parts.reverse();
        self.finished = true;
        Ok(())
    }

    /// Takes up the next part: what is done at its place. The page is then after that part, but for a subrequest whose
    /// body is captured, which `captured` takes up. `vars` are the variables that are set now.
    pub fn next(
        &mut self,
        alloc: Global,
        scene: &Scene<'_>,
        vars: &VarTable,
    ) -> Result<Doing, OutOfMemory>
        ensures does { IfOk result (λ doing.
            DoesNext scene.now vars.now self.old self.new doing) }
        ensures level { IfOk result (λ doing. AsksByLevel scene.now doing) }
        ensures stops { IfOk result (λ doing. stop_of doing ≡ stop_at self.old) }
        ensures over { IfOk result (λ doing. stop_of doing ≡ Some true
            → IsOver scene.now self.old) }
        ensures ready { IfOk result (λ doing. stop_of doing ≡ Some false
            → (waits self.new ≡ false) × (is_finished self.new ≡ false)) }
        ensures fewer { OnOk result (parts_left self.new ≡ parts_left self.old - 1) }
        ensures stays { OnOk result (is_finished self.new ≡ is_finished self.old) }
    {
        match self.parts.pop() {
            Some(part) => {
                let doing = part_done(&mut self.document, alloc, scene, vars, part)?;
                Ok(doing)
            }
            None => Ok(idle(self.finished)),
        }
    }

    /// The body of a subrequest that is captured goes into the variable of this name; a body that is longer than
    /// `subrequest_output_buffer_size` unsets it. The text that is written in its place, if there is one.
    pub fn captured(
        &mut self,
        alloc: Global,
        scene: &Scene<'_>,
        name: &[u8],
        body: ByteText,
    ) -> Result<Option<ByteText>, OutOfMemory>
        ensures goes_on { IfOk result (λ text. (w : World) (answer : Answer) (bytes : List ℕ)
            → page_captured w answer scene.now self.old name.now body bytes
            ≡ text_then text (page_rest w answer scene.now self.new bytes)) }
        ensures parts { OnOk result (parts_left self.new ≡ parts_left self.old) }
        ensures stays { OnOk result (is_finished self.new ≡ is_finished self.old) }
    {
        let text = self.document.captured(alloc, scene, name, body)?;
        Ok(text)
    }
}
