// The commands `if`, `elif`, `else` and `endif`.
ghost use Rattle.std.specs.Prelude.{◌≡◌, ℕ, not, IfOk, OnOk};
ghost use Rattle.request_meaning.specs.Documents.{Doc};
ghost use Rattle.request_meaning.specs.Documents.Branch.{InIf};
ghost use Rattle.request_meaning.specs.Serving.{World};
ghost use Rattle.request_meaning.specs.Commands.{in_branch, opens, opened as opened_act, if_done as if_act, elif_done as elif_act, else_done as else_act, endif_done as endif_act};
ghost use Rattle.ssi_values.specs.Known.{truth_seen};
ghost use Rattle.ssi_exec.specs.declared.document.Scene.{Scene as SceneView};
ghost use Rattle.ssi_exec.specs.Scenes.{branch_seen, doc_seen, written, Writes};
ghost use Rattle.ssi_exec.specs.Stages.{is_outside as outside, stage_of};

use crate::document::{Branch, Document, Scene};
use crate::words::text_of;
use byte_text::{ByteText, OutOfMemory};
use ngx_variables::VarTable;
use ssi_text::Param;
use ssi_values::{Truth, truth_settles};
use std::alloc::Global;

/// How far an `if` has come: none is open; its `else` was seen; a branch of it was taken; or none was yet.
#[derive(Clone, Copy)]
pub enum Stage {
    Outside,
    BehindElse,
    Taken,
    Untaken,
}

fn stage_at(branch: Branch) -> Stage
    ensures { result ≡ stage_of (branch_seen branch) }
{
    match branch {
        Branch::NoIf => Stage::Outside,
        Branch::InIf { taken, last, .. } => {
            if last {
                Stage::BehindElse
            } else if taken {
                Stage::Taken
            } else {
                Stage::Untaken
            }
        }
    }
}

fn is_outside(branch: Branch) -> bool
    ensures { result ≡ outside (branch_seen branch) }
{
    match branch {
        Branch::NoIf => true,
        Branch::InIf { .. } => false,
    }
}

impl Document {
    /// Goes on in a branch.
    fn enter(&mut self, live: bool, taken: bool, last: bool)
        ensures { (scene : SceneView) → doc_seen scene self.new
            ≡ in_branch (doc_seen scene self.old) (InIf live taken last) }
    {
        self.branch = Branch::InIf { live, taken, last };
    }

    /// Opens an `if` or its next branch by what its condition says.
    fn open(
        &mut self,
        alloc: Global,
        scene: &Scene<'_>,
        truth: Truth,
    ) -> Result<Option<ByteText>, OutOfMemory>
        ensures { IfOk result (λ text. opens (doc_seen scene.now self.old) (truth_seen truth)
            ≡ written text (doc_seen scene.now self.new)) }
    {
        match truth {
            Truth::Is(holds) => {
                self.enter(holds, holds, false);
                Ok(None)
            }
            Truth::Unread => {
                let text = self.oops(alloc, scene)?;
                Ok(text)
            }
            Truth::Pattern => {
                let text = self.error_text(alloc, scene)?;
                self.enter(false, false, false);
                Ok(Some(text))
            }
        }
    }

    /// Reads a condition, and opens by it.
    fn opened(
        &mut self,
        alloc: Global,
        scene: &Scene<'_>,
        vars: &VarTable,
        text: &[u8],
    ) -> Result<Option<ByteText>, OutOfMemory>
        ensures { IfOk result (λ out. Writes scene.now vars.now
            (λ w. opened_act w (doc_seen scene.now self.old) text.now) out self.new) }
    {
        truth_settles();
        let truth = self.truth_of(alloc, scene, vars, text)?;
        let out = self.open(alloc, scene, truth)?;
        Ok(out)
    }

    /// An `if` inside an `if` opens nothing.
    pub(crate) fn if_done(
        &mut self,
        alloc: Global,
        scene: &Scene<'_>,
        vars: &VarTable,
        ps: &[Param],
    ) -> Result<Option<ByteText>, OutOfMemory>
        ensures { IfOk result (λ out. Writes scene.now vars.now
            (λ w. if_act w (doc_seen scene.now self.old) ps.now (branch_seen self.old.branch))
            out self.new) }
    {
        if is_outside(self.branch) {
            let out = self.opened(alloc, scene, vars, text_of(b"expr", ps))?;
            return Ok(out);
        }
        let out = self.live_oops(alloc, scene)?;
        Ok(out)
    }

    /// After a branch that was taken the condition of an `elif` isn't read; one that can't be read leaves the `if` as
    /// it was.
    pub(crate) fn elif_done(
        &mut self,
        alloc: Global,
        scene: &Scene<'_>,
        vars: &VarTable,
        ps: &[Param],
    ) -> Result<Option<ByteText>, OutOfMemory>
        ensures { IfOk result (λ out. Writes scene.now vars.now
            (λ w. elif_act w (doc_seen scene.now self.old) ps.now (branch_seen self.old.branch))
            out self.new) }
    {
        match stage_at(self.branch) {
            Stage::Outside => {
                let out = self.oops(alloc, scene)?;
                Ok(out)
            }
            Stage::BehindElse => {
                let out = self.live_oops(alloc, scene)?;
                Ok(out)
            }
            Stage::Taken => {
                self.enter(false, true, false);
                Ok(None)
            }
            Stage::Untaken => {
                let out = self.opened(alloc, scene, vars, text_of(b"expr", ps))?;
                Ok(out)
            }
        }
    }

    /// An `else` is live where no branch was taken.
    pub(crate) fn else_done(
        &mut self,
        alloc: Global,
        scene: &Scene<'_>,
    ) -> Result<Option<ByteText>, OutOfMemory>
        ensures { IfOk result (λ out.
            else_act (doc_seen scene.now self.old) (branch_seen self.old.branch)
            ≡ written out (doc_seen scene.now self.new)) }
    {
        match stage_at(self.branch) {
            Stage::Outside => {
                let out = self.oops(alloc, scene)?;
                Ok(out)
            }
            Stage::BehindElse => {
                let out = self.live_oops(alloc, scene)?;
                Ok(out)
            }
            Stage::Taken => {
                self.enter(false, true, true);
                Ok(None)
            }
            Stage::Untaken => {
                self.enter(true, true, true);
                Ok(None)
            }
        }
    }

    pub(crate) fn endif_done(
        &mut self,
        alloc: Global,
        scene: &Scene<'_>,
    ) -> Result<Option<ByteText>, OutOfMemory>
        ensures { IfOk result (λ out.
            endif_act (doc_seen scene.now self.old) (branch_seen self.old.branch)
            ≡ written out (doc_seen scene.now self.new)) }
    {
        if is_outside(self.branch) {
            let out = self.oops(alloc, scene)?;
            return Ok(out);
        }
        self.branch = Branch::NoIf;
        Ok(None)
    }
}
