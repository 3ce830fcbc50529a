// The parts of a document, one after another.
ghost use Rattle.std.specs.Prelude.{◌≡◌, ℕ, ◌&&◌, not, false, List, IfOk, Some, None, if◌then◌else◌};
ghost use Rattle.acts.specs.Act.{Done};
ghost use Rattle.request_meaning.specs.Serving.{World};
ghost use Rattle.request_meaning.specs.Bodies.{command_part as part_command, part as part_act};
ghost use Rattle.request_meaning.specs.Commands.{command as command_act, done as word_act};
ghost use Rattle.request_meaning.specs.Documents.{Doc, is_live};
ghost use Rattle.ssi_text.specs.declared.part.Part.TheVariants.{Text};
ghost use Rattle.ssi_text.specs.declared.part.Part.{Part as PartView};
ghost use Rattle.ssi_exec.specs.Named.{includes as asks_another, needs_live as waits_for_live, word_seen};
ghost use Rattle.ssi_exec.specs.Scenes.{branch_seen, doc_seen, plain_act, served_act, written, DoesPart, Writes};

use crate::document::{Document, Scene, Served};
use crate::words::{Word, are_params, text_of, word_named};
use byte_text::{ByteText, OutOfMemory};
use ngx_variables::VarTable;
use ssi_text::{Param, Part};
use std::alloc::Global;

/// Whether a command does nothing in text that isn't live.
fn needs_live(word: Word) -> bool
    ensures { result ≡ waits_for_live (word_seen word) }
{
    match word {
        Word::Block => true,
        Word::EndBlock => false,
        Word::Config => true,
        Word::Echo => true,
        Word::If => false,
        Word::Elif => false,
        Word::Else => false,
        Word::EndIf => false,
        Word::Include => true,
        Word::Set => true,
    }
}

fn includes(word: Word) -> bool
    ensures { result ≡ asks_another (word_seen word) }
{
    match word {
        Word::Include => true,
        _ => false,
    }
}

/// Text that is written as it is, or isn't.
fn same(live: bool) -> Served
    ensures { (text : List ℕ) (doc : Doc) → served_act (Text text) result doc
        ≡ written (if live then Some text else None) doc }
{
    if live { Served::Same } else { Served::Nothing }
}

impl Document {
    /// A command, whether text is live or not: what it writes.
    #[inline(never)]
    fn written_by(
        &mut self,
        alloc: Global,
        scene: &Scene<'_>,
        vars: &VarTable,
        word: Word,
        ps: &[Param],
    ) -> Result<Option<ByteText>, OutOfMemory>
        ensures { IfOk result (λ text. asks_another (word_seen word) ≡ false
            → Writes scene.now vars.now
            (λ w. plain_act w (doc_seen scene.now self.old) (word_seen word) ps.now)
            text self.new) }
    {
        match word {
            Word::Block => {
                self.open_block(alloc, text_of(b"name", ps))?;
                Ok(None)
            }
            Word::EndBlock => {
                let text = self.live_oops(alloc, scene)?;
                Ok(text)
            }
            Word::Config => {
                let text = self.config(alloc, scene, ps)?;
                Ok(text)
            }
            Word::Echo => {
                let text = self.echo(alloc, scene, vars, ps)?;
                Ok(text)
            }
            Word::If => {
                let text = self.if_done(alloc, scene, vars, ps)?;
                Ok(text)
            }
            Word::Elif => {
                let text = self.elif_done(alloc, scene, vars, ps)?;
                Ok(text)
            }
            Word::Else => {
                let text = self.else_done(alloc, scene)?;
                Ok(text)
            }
            Word::EndIf => {
                let text = self.endif_done(alloc, scene)?;
                Ok(text)
            }
            Word::Include => Ok(None),
            Word::Set => {
                let text = self.set(alloc, scene, vars, ps)?;
                Ok(text)
            }
        }
    }

    /// Whether a command is passed over here.
    fn is_idle(&self, word: Word) -> bool
        ensures { result ≡ (waits_for_live (word_seen word)
            && not (is_live (branch_seen self.now.branch))) }
    {
        needs_live(word) && !self.is_live()
    }

    /// A command with good parameters.
    fn done(
        &mut self,
        alloc: Global,
        scene: &Scene<'_>,
        vars: &VarTable,
        word: Word,
        ps: &[Param],
    ) -> Result<Served, OutOfMemory>
        ensures { IfOk result (λ served. (part : PartView) → DoesPart scene.now vars.now
            (λ w. word_act w (doc_seen scene.now self.old) (word_seen word) ps.now) part served
            self.new) }
    {
        if self.is_idle(word) {
            return Ok(Served::Nothing);
        }
        if includes(word) {
            let served = self.include(alloc, scene, vars, ps)?;
            return Ok(served);
        }
        let text = self.written_by(alloc, scene, vars, word, ps)?;
        Ok(Served::of(text))
    }

    /// A command outside a block.
    fn command(
        &mut self,
        alloc: Global,
        scene: &Scene<'_>,
        vars: &VarTable,
        name: &[u8],
        ps: &[Param],
    ) -> Result<Served, OutOfMemory>
        ensures { IfOk result (λ served. (part : PartView) → DoesPart scene.now vars.now
            (λ w. command_act w (doc_seen scene.now self.old) name.now ps.now) part served
            self.new) }
    {
        match word_named(name) {
            Some(word) => {
                if !are_params(word, ps, scene.level.value_most) {
                    let bad = self.live_oops(alloc, scene)?;
                    return Ok(Served::of(bad));
                }
                let served = self.done(alloc, scene, vars, word, ps)?;
                Ok(served)
            }
            None => {
                let text = self.live_oops(alloc, scene)?;
                Ok(Served::of(text))
            }
        }
    }

    /// A command, inside a block or outside.
    fn command_part(
        &mut self,
        alloc: Global,
        scene: &Scene<'_>,
        vars: &VarTable,
        name: &[u8],
        ps: &[Param],
    ) -> Result<Served, OutOfMemory>
        ensures { IfOk result (λ served. (part : PartView) → DoesPart scene.now vars.now
            (λ w. part_command w (doc_seen scene.now self.old) name.now ps.now
            (doc_seen scene.now self.old).block) part served self.new) }
    {
        match self.block.take() {
            Some(block) => {
                let text = self.block_command(alloc, scene, block, name, ps)?;
                Ok(Served::of(text))
            }
            None => {
                let served = self.command(alloc, scene, vars, name, ps)?;
                Ok(served)
            }
        }
    }

    /// Takes up the next part of the document: what is done at its place. The document is then after the part, but for
    /// a subrequest whose body is captured, which `captured` takes up. `vars` are the variables that are set now.
    ///
    /// # Errors
    /// After want of memory the document is fit to be dropped alone.
    pub fn next(
        &mut self,
        alloc: Global,
        scene: &Scene<'_>,
        part: &Part,
        vars: &VarTable,
    ) -> Result<Served, OutOfMemory>
        ensures { IfOk result (λ served. DoesPart scene.now vars.now
            (λ w. part_act w (doc_seen scene.now self.old) part.now) part.now served self.new) }
    {
        match part {
            Part::Text(text) => {
                let live = self.text(text.as_slice())?;
                Ok(same(live))
            }
            Part::Command { name, params } => {
                let served = self.command_part(
                    alloc,
                    scene,
                    vars,
                    name.as_slice(),
                    params.as_slice(),
                )?;
                Ok(served)
            }
            Part::Bad => {
                let text = self.bad(alloc, scene)?;
                Ok(Served::of(text))
            }
            Part::Before => {
                let served = self.added(alloc, scene, &scene.level.before)?;
                Ok(served)
            }
            Part::After => {
                let served = self.added(alloc, scene, &scene.level.after)?;
                Ok(served)
            }
        }
    }
}
