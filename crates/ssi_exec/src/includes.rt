// The command `include`, what a captured body comes to, and the bodies that additions put before and after a document.
ghost use Rattle.std.specs.Prelude.{◌≡◌, ◌≢◌, ℕ, ◌+◌, ◌-◌, ◌<◌, ◌≤◌, ◌==◌, ◌++◌, List, codes, length, take, IfOk, None, Some, option_map, unwrap_or, is_some, if◌then◌else◌};
ghost use Rattle.std.specs.List.{suffix_len};
ghost use Rattle.std.specs.Result.{result_ok};
ghost use Rattle.uri_text.specs.Target.{normal_of};
ghost use Rattle.ngx_variables.specs.Grammar.{begins_with};
ghost use Rattle.ssi_exec.specs.declared.document.Scene.{Scene as SceneView};
ghost use Rattle.ssi_text.specs.declared.part.Part.{Part as PartView};
ghost use Rattle.ssi_text.specs.declared.part.Param.{Param as ParamView};
ghost use Rattle.request_meaning.specs.Commands.{captured, child_of, folder_of, in_folder as at_folder, include_at, include_child, include_done, included, param as value_of};
ghost use Rattle.ssi_exec.specs.Includes.{Says, folder_path, is_there, stub_in};
ghost use Rattle.request_meaning.specs.Documents.{oops};
ghost use Rattle.request_meaning.specs.Bodies.{added_part};
ghost use Rattle.ssi_exec.specs.Scenes.{child_seen, doc_seen, served_act, written, DoesPart};

use crate::asked::{Asked, read_asked};
use crate::document::{Child, Document, Scene, Served};
use byte_text::{ByteText, OutOfMemory};
use ngx_variables::VarTable;
use ssi_text::Param;
use ssi_values::{Table, filled_settles, is_of_itself, lowercase};
use std::alloc::Global;
use uri_text::{UriFault, normal};

/// A path of the site and its arguments.
#[derive(Drop)]
pub struct Target {
    path: ByteText,
    args: ByteText,
}

/// Whether the block of a stub is there.
fn is_there(blocks: &Table, name: Option<&[u8]>) -> bool
    ensures { result ≡ is_there blocks.now (option_map (λ n. n.now) name.entry) }
{
    match name {
        Some(name) => blocks.get(name).is_some(),
        None => true,
    }
}

/// A path up to its last slash, with it.
fn folder_of(path: &[u8]) -> &[u8]
    ensures { result.now ≡ folder_of path.now }
{
    let mut rest = path;
    while let [before @ .., last] = rest {
        if *last == b'/' {
            return rest;
        }
        rest = before;
    }
    rest
}

fn begins_with_slash(text: &[u8]) -> bool
    ensures { result ≡ begins_with 47 text.now }
{
    match text {
        [b'/', ..] => true,
        _ => false,
    }
}

/// No target: the text names no path, unless it is want of memory.
fn no_target(fault: UriFault) -> Result<Option<Target>, OutOfMemory>
    ensures { IfOk result (λ target. (target ≡ None) × (fault ≢ UriFault.OutOfMemory)) }
{
    match fault {
        UriFault::BadEscape => Ok(None),
        UriFault::Zero => Ok(None),
        UriFault::AboveRoot => Ok(None),
        UriFault::NotAPath => Ok(None),
        UriFault::OutOfMemory => Err(OutOfMemory),
    }
}

/// The path and the arguments that a text names, if it names a path.
#[inline(always)]
fn target_of(alloc: Global, text: &[u8], merge: bool) -> Result<Option<Target>, OutOfMemory>
    ensures { IfOk result (λ target. option_map (λ t. (t.path, t.args)) target
        ≡ result_ok (normal_of text.now merge)) }
{
    let mut path = ByteText::new(alloc);
    let mut args = ByteText::new(alloc);
    match normal(text, merge, &mut path, &mut args) {
        Ok(()) => Ok(Some(Target { path, args })),
        Err(fault) => {
            let none = no_target(fault)?;
            Ok(none)
        }
    }
}

/// A path that doesn't begin with a slash is in the folder of the document's.
#[inline(never)]
fn in_folder(alloc: Global, path: &[u8], text: &[u8]) -> Result<ByteText, OutOfMemory>
    ensures { IfOk result (λ whole. whole ≡ folder_of path.now ++ text.now) }
{
    let mut whole = ByteText::from_slice(alloc, folder_of(path))?;
    whole.extend(text)?;
    Ok(whole)
}

/// The path and the arguments that a text in a document at this path names, if it names a path.
#[inline(always)]
fn target_in(
    alloc: Global,
    path: &[u8],
    text: &[u8],
    merge: bool,
) -> Result<Option<Target>, OutOfMemory>
    ensures { IfOk result (λ target. option_map (λ t. (t.path, t.args)) target
        ≡ result_ok (normal_of (folder_path path.now text.now) merge)) }
{
    if begins_with_slash(text) {
        let target = target_of(alloc, text, merge)?;
        return Ok(target);
    }
    let whole = in_folder(alloc, path, text)?;
    let target = target_of(alloc, whole.as_slice(), merge)?;
    Ok(target)
}

fn copied(alloc: Global, text: Option<&[u8]>) -> Result<Option<ByteText>, OutOfMemory>
    ensures { IfOk result (λ copy. copy ≡ option_map (λ text. text.now) text.entry) }
{
    match text {
        Some(text) => {
            let copy = ByteText::from_slice(alloc, text)?;
            Ok(Some(copy))
        }
        None => Ok(None),
    }
}

/// The text of a stub, by the name of its block.
#[inline(always)]
fn stub_of(
    alloc: Global,
    blocks: &Table,
    name: Option<&[u8]>,
) -> Result<Option<ByteText>, OutOfMemory>
    ensures { IfOk result (λ stub.
        stub ≡ stub_in blocks.now (option_map (λ n. n.now) name.entry)) }
{
    match name {
        Some(name) => {
            let stub = copied(alloc, blocks.get(name))?;
            Ok(stub)
        }
        None => Ok(None),
    }
}

impl Document {
    /// The subrequest of an include, whose document begins with this one's variables.
    #[inline(always)]
    fn child_of(
        &self,
        alloc: Global,
        asked: Asked<'_>,
        target: Target,
    ) -> Result<Child, OutOfMemory>
        ensures { IfOk result (λ child. (scene : SceneView) (ps : List ParamView)
            → Says asked.entry ps → child_seen scene.main.now child
            ≡ child_of (doc_seen scene self.now) ps target.path target.args) }
    {
        let Target { path, args } = target;
        let ssi = self.ssi.copy(alloc)?;
        let stub = stub_of(alloc, &self.blocks, asked.stub)?;
        Ok(Child {
            path,
            args,
            ssi,
            stub,
            waited: asked.waited,
        })
    }

    /// The error text, as what is done for a part.
    fn fails(&self, alloc: Global, scene: &Scene<'_>) -> Result<Served, OutOfMemory>
        ensures { IfOk result (λ served. (part : PartView)
            → oops (doc_seen scene.now self.now)
            ≡ served_act part served (doc_seen scene.now self.now)) }
    {
        let text = self.error_text(alloc, scene)?;
        Ok(Served::Text(text))
    }

    /// An include of a path: its body is put here, or with `set` goes into a variable of the document.
    #[tactic(auto, unfolding(request_meaning::specs::Commands::include_child))]
    #[inline(always)]
    fn include_child(
        &self,
        alloc: Global,
        asked: Asked<'_>,
        target: Target,
    ) -> Result<Served, OutOfMemory>
        ensures { IfOk result (λ served. (scene : SceneView) (part : PartView)
            (ps : List ParamView) → Says asked.entry ps
            → include_child (doc_seen scene self.now)
            (child_of (doc_seen scene self.now) ps target.path target.args)
            (value_of (codes "set") ps)
            ≡ served_act part served (doc_seen scene self.now)) }
    {
        let child = self.child_of(alloc, asked, target)?;
        match asked.set {
            Some(name) => {
                let name = lowercase(alloc, name)?;
                Ok(Served::Captures { name, child })
            }
            None => Ok(Served::Includes(child)),
        }
    }

    /// An include of what a text names, unless no level of subrequests is left.
    #[inline(always)]
    fn include_at(
        &self,
        alloc: Global,
        scene: &Scene<'_>,
        asked: Asked<'_>,
        text: &[u8],
    ) -> Result<Served, OutOfMemory>
        ensures { IfOk result (λ served. (part : PartView) (ps : List ParamView) → Says asked.entry ps
            → include_at (doc_seen scene.now self.now) ps
            (normal_of (at_folder (doc_seen scene.now self.now) text.now)
            scene.now.server.now.merge)
            ≡ served_act part served (doc_seen scene.now self.now)) }
    {
        let path = scene.request.path.as_slice();
        let target = target_in(alloc, path, text, scene.server.merge)?;
        match target {
            Some(target) => {
                if scene.left == 0 {
                    let served = self.fails(alloc, scene)?;
                    return Ok(served);
                }
                let child = self.include_child(alloc, asked, target)?;
                Ok(child)
            }
            None => {
                let none = self.fails(alloc, scene)?;
                Ok(none)
            }
        }
    }

    /// The command `include`.
    #[inline(never)]
    pub(crate) fn include(
        &self,
        alloc: Global,
        scene: &Scene<'_>,
        vars: &VarTable,
        ps: &[Param],
    ) -> Result<Served, OutOfMemory>
        ensures { IfOk result (λ served. (part : PartView) → DoesPart scene.now vars.now
            (λ w. include_done w (doc_seen scene.now self.now) ps.now) part served self.now) }
    {
        filled_settles();
        let Some(asked) = read_asked(ps) else {
            let served = self.fails(alloc, scene)?;
            return Ok(served);
        };
        if !is_there(&self.blocks, asked.stub) {
            let served = self.fails(alloc, scene)?;
            return Ok(served);
        }
        if is_of_itself(asked.name) {
            let child = self.include_at(alloc, scene, asked, asked.name)?;
            return Ok(child);
        }
        let text = self.filled_in(alloc, scene, vars, asked.name)?;
        match text {
            Some(text) => {
                let child = self.include_at(alloc, scene, asked, text.as_slice())?;
                Ok(child)
            }
            None => {
                let none = self.fails(alloc, scene)?;
                Ok(none)
            }
        }
    }

    /// The body of a subrequest that a part captures goes into the variable of this name; a body that is longer than
    /// `subrequest_output_buffer_size` unsets it. The text that is written in its place, if there is one.
    #[tactic(auto, unfolding(request_meaning::specs::Commands::captured, site_whole::specs::Whole::values_seen))]
    pub fn captured(
        &mut self,
        alloc: Global,
        scene: &Scene<'_>,
        name: &[u8],
        body: ByteText,
    ) -> Result<Option<ByteText>, OutOfMemory>
        ensures { IfOk result (λ text. captured (doc_seen scene.now self.old) name.now body
            ≡ written text (doc_seen scene.now self.new)) }
    {
        if body.len() > scene.level.capture_most as usize {
            self.ssi.remove(name);
            let text = self.oops(alloc, scene)?;
            return Ok(text);
        }
        self.ssi.put(name, body)?;
        Ok(None)
    }

    /// The body of an addition, unless no level of subrequests is left.
    #[tactic(auto, unfolding(request_meaning::specs::Bodies::added_part, request_meaning::specs::Bodies::added_at))]
    #[inline(never)]
    pub(crate) fn added(
        &self,
        alloc: Global,
        scene: &Scene<'_>,
        path: &Option<ByteText>,
    ) -> Result<Served, OutOfMemory>
        ensures { IfOk result (λ served. (part : PartView)
            → added_part (doc_seen scene.now self.now) path.now
            ≡ served_act part served (doc_seen scene.now self.now)) }
    {
        match path {
            Some(path) => {
                if scene.left == 0 {
                    let served = self.fails(alloc, scene)?;
                    return Ok(served);
                }
                let path = ByteText::from_slice(alloc, path.as_slice())?;
                let ssi = self.ssi.copy(alloc)?;
                Ok(Served::Includes(Child {
                    path,
                    args: ByteText::new(alloc),
                    ssi,
                    stub: None,
                    waited: false,
                }))
            }
            None => Ok(Served::Nothing),
        }
    }
}
