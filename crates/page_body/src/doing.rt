// What is done for a part of a page.
ghost use Rattle.std.specs.Prelude.{◌≡◌, ℕ, false, List, map, IfOk, if◌then◌else◌, Some, ◌∷◌, [], ◌++◌};
ghost use Rattle.acts.specs.Vars.{Vars};
ghost use Rattle.ngx_variables.specs.declared.request.Main.{Main};
ghost use Rattle.ssi_text.specs.Marks.{Byte, Other, part_marks};
ghost use Rattle.family_meaning.specs.request_meaning.Serving.{Answer, Serving};
ghost use Rattle.ssi_exec.specs.declared.document.Scene.{Scene as SceneView};
ghost use Rattle.ssi_exec.specs.Scenes.{bytes_then, own_text as text_of};
ghost use Rattle.page_body.specs.Pages.{AsksByLevel, Does, DoesMarks, asks, doing_seen, stop_of};

use byte_text::{ByteText, OutOfMemory};
use ngx_variables::VarTable;
use ssi_exec::{Child, Document, Scene, Served};
use ssi_text::Part;
use std::alloc::Global;

/// What is done for the next part of a page, at its place.
#[derive(Drop)]
pub enum Doing {
    /// Nothing.
    Nothing,
    /// This text is written.
    Writes(ByteText),
    /// The body of a subrequest is here.
    Includes(Child),
    /// A subrequest is asked, and its body goes to `Page::captured` under this name.
    Captures { name: ByteText, child: Child },
    /// No part waits: the next block of the file is needed, or to know that it has come to its end.
    NeedsMore,
    /// No part waits, and none will.
    Over,
}

/// The text of a part that is taken as it is.
fn own_text(alloc: Global, part: Part) -> ByteText
    ensures { result ≡ text_of part }
{
    match part {
        Part::Text(text) => text,
        _ => ByteText::new(alloc),
    }
}

/// What is served for a part, as what is done.
fn doing_of(alloc: Global, part: Part, served: Served) -> Doing
    ensures { result ≡ doing_seen part served }
{
    match served {
        Served::Nothing => Doing::Nothing,
        Served::Same => Doing::Writes(own_text(alloc, part)),
        Served::Text(text) => Doing::Writes(text),
        Served::Includes(child) => Doing::Includes(child),
        Served::Captures { name, child } => Doing::Captures { name, child },
    }
}

/// Text that is live, if there is some, is written, with no copy.
fn shown(text: ByteText, live: bool) -> Doing
    ensures does { (main : Main) (vars : Vars) (act : Serving Answer)
        (captures : List ℕ → List ℕ → Serving Answer)
        → Does main vars result (bytes_then live text act) act captures }
    ensures goes_on { (stop_of result ≡ None) × (asks result ≡ false) }
{
    if live && !text.is_empty() {
        Doing::Writes(text)
    } else {
        Doing::Nothing
    }
}

fn text_done(document: &mut Document, text: ByteText) -> Result<Doing, OutOfMemory>
    ensures does { IfOk result (λ doing. (scene : SceneView) (vars : Vars)
        → DoesMarks scene vars document.old (map Byte text) document.new doing) }
    ensures goes_on { IfOk result (λ doing.
        (stop_of doing ≡ None) × (asks doing ≡ false)) }
{
    let live = document.text(text.as_slice())?;
    Ok(shown(text, live))
}

fn other_done(
    document: &mut Document,
    alloc: Global,
    scene: &Scene<'_>,
    vars: &VarTable,
    part: Part,
) -> Result<Doing, OutOfMemory>
    ensures does { IfOk result (λ doing.
        DoesMarks scene.now vars.now document.old (Other part ∷ []) document.new doing) }
    ensures level { IfOk result (λ doing. AsksByLevel scene.now doing) }
    ensures goes_on { IfOk result (λ doing. stop_of doing ≡ None) }
{
    let served = document.next(alloc, scene, &part, vars)?;
    Ok(doing_of(alloc, part, served))
}

/// Does the next part of a document.
pub(crate) fn part_done(
    document: &mut Document,
    alloc: Global,
    scene: &Scene<'_>,
    vars: &VarTable,
    part: Part,
) -> Result<Doing, OutOfMemory>
    ensures does { IfOk result (λ doing.
        DoesMarks scene.now vars.now document.old (part_marks part) document.new doing) }
    ensures level { IfOk result (λ doing. AsksByLevel scene.now doing) }
    ensures goes_on { IfOk result (λ doing. stop_of doing ≡ None) }
{
    match part {
        Part::Text(text) => {
            let text = text_done(document, text)?;
            Ok(text)
        }
        other => {
            let doing = other_done(document, alloc, scene, vars, other)?;
            Ok(doing)
        }
    }
}

/// What is done where no part waits.
pub(crate) fn idle(finished: bool) -> Doing
    ensures does { (main : Main) (vars : Vars) (act : Serving Answer)
        (captures : List ℕ → List ℕ → Serving Answer) → Does main vars result act act captures }
    ensures stops { (stop_of result ≡ Some finished) × (asks result ≡ false) }
{
    if finished {
        Doing::Over
    } else {
        Doing::NeedsMore
    }
}
