// The commands `config`, `echo` and `set`.
ghost use Rattle.std.specs.Prelude.{◌≡◌, ℕ, ◌&&◌, ◌||◌, is_some, ◌<◌, ◌≤◌, Bool, codes, IfOk, OnOk, None, Some, option_map, unwrap_or};
ghost use Rattle.ngx_variables.specs.Texts.{is_too_long};
ghost use Rattle.ssi_exec.specs.declared.document.Scene.{Scene as SceneView};
ghost use Rattle.request_meaning.specs.Commands.{config_done, echo_done, echo_text, fit_encoded as fitting, is_good_format as is_good, kept, or_default as default_for, param as value_of, set_done, with_format, with_message};
ghost use Rattle.ssi_exec.specs.Scenes.{doc_seen, written, Writes};

use crate::document::{Document, Scene};
use crate::words::{param, text_of};
use byte_text::{ByteText, OutOfMemory};
use http_moment::is_time_format;
use ngx_variables::VarTable;
use ssi_text::Param;
use ssi_values::{encoded, filled_settles, lowercase, named_settles};
use std::alloc::Global;

/// The most bytes of a text of a document.
const TEXT_LIMIT: usize = 16384;

fn is_good_format(format: Option<&[u8]>) -> bool
    ensures { result ≡ is_good (option_map (λ f. f.now) format.entry) }
{
    match format {
        Some(format) => is_time_format(format),
        None => true,
    }
}

/// Whether something is to be set, and the format of dates is one.
fn is_config(message: Option<&[u8]>, format: Option<&[u8]>) -> bool
    ensures { result ≡ ((is_some (option_map (λ m. m.now) message.entry)
        || is_some (option_map (λ f. f.now) format.entry))
        && is_good (option_map (λ f. f.now) format.entry)) }
{
    (message.is_some() || format.is_some()) && is_good_format(format)
}

/// A value, or what `default` says where there is none.
fn or_default<'a>(ps: &'a [Param], value: &'a Option<ByteText>) -> &'a [u8]
    ensures { result.now ≡ default_for ps.now value.now }
{
    match value {
        Some(value) => value.as_slice(),
        None => match param(b"default", ps) {
            Some(text) => text,
            None => b"(none)",
        },
    }
}

fn encoding_of(ps: &[Param]) -> &[u8]
    ensures { result.now ≡ unwrap_or (value_of (codes "encoding") ps.now) (codes "entity") }
{
    match param(b"encoding", ps) {
        Some(encoding) => encoding,
        None => b"entity",
    }
}

/// A text in an encoding, unless it has more bytes than it may.
#[tactic(auto, unfolding(ngx_variables::specs::Texts::is_too_long))]
fn fit_encoded(alloc: Global, encoding: &[u8], text: &[u8]) -> Result<Option<ByteText>, OutOfMemory>
    ensures { IfOk result (λ out. out ≡ fitting encoding.now text.now) }
{
    if text.len() > TEXT_LIMIT {
        return Ok(None);
    }
    let out = encoded(alloc, encoding, text)?;
    Ok(out)
}

impl Document {
    fn set_message(&mut self, alloc: Global, text: Option<&[u8]>) -> Result<(), OutOfMemory>
        ensures { OnOk result ((scene : SceneView) → doc_seen scene self.new
            ≡ with_message (option_map (λ t. t.now) text.entry) (doc_seen scene self.old)) }
    {
        match text {
            Some(text) => {
                let text = ByteText::from_slice(alloc, text)?;
                self.message = Some(text);
                Ok(())
            }
            None => Ok(()),
        }
    }

    fn set_format(&mut self, alloc: Global, text: Option<&[u8]>) -> Result<(), OutOfMemory>
        ensures { OnOk result ((scene : SceneView) → doc_seen scene self.new
            ≡ with_format (option_map (λ t. t.now) text.entry) (doc_seen scene self.old)) }
    {
        match text {
            Some(text) => {
                let text = ByteText::from_slice(alloc, text)?;
                self.format = Some(text);
                Ok(())
            }
            None => Ok(()),
        }
    }

    /// Sets the error text, the format of dates, or both.
    #[tactic(auto, unfolding(request_meaning::specs::Commands::config_done))]
    pub(crate) fn config(
        &mut self,
        alloc: Global,
        scene: &Scene<'_>,
        ps: &[Param],
    ) -> Result<Option<ByteText>, OutOfMemory>
        ensures { IfOk result (λ text. config_done (doc_seen scene.now self.old) ps.now
            ≡ written text (doc_seen scene.now self.new)) }
    {
        let message = param(b"errmsg", ps);
        let format = param(b"timefmt", ps);
        if !is_config(message, format) {
            let out = self.oops(alloc, scene)?;
            return Ok(out);
        }
        self.set_message(alloc, message)?;
        self.set_format(alloc, format)?;
        Ok(None)
    }

    /// A text that is echoed, or the error text where there is none.
    fn echoed(
        &self,
        alloc: Global,
        scene: &Scene<'_>,
        text: Option<ByteText>,
    ) -> Result<Option<ByteText>, OutOfMemory>
        ensures { IfOk result (λ out. echo_text (doc_seen scene.now self.now) text
            ≡ written out (doc_seen scene.now self.now)) }
    {
        match text {
            Some(text) => Ok(Some(text)),
            None => {
                let out = self.oops(alloc, scene)?;
                Ok(out)
            }
        }
    }

    /// The value of a name in its encoding, or what `default` says where it has none.
    pub(crate) fn echo(
        &self,
        alloc: Global,
        scene: &Scene<'_>,
        vars: &VarTable,
        ps: &[Param],
    ) -> Result<Option<ByteText>, OutOfMemory>
        ensures { IfOk result (λ text. Writes scene.now vars.now
            (λ w. echo_done w (doc_seen scene.now self.now) ps.now) text self.now) }
    {
        named_settles();
        let value = self.named(alloc, scene, vars, text_of(b"var", ps))?;
        let text = fit_encoded(alloc, encoding_of(ps), or_default(ps, &value))?;
        let out = self.echoed(alloc, scene, text)?;
        Ok(out)
    }

    /// Gives a variable of the document's own a value, unless there is none.
    fn keep(
        &mut self,
        alloc: Global,
        scene: &Scene<'_>,
        name: &[u8],
        value: Option<ByteText>,
    ) -> Result<Option<ByteText>, OutOfMemory>
        ensures { IfOk result (λ text. kept (doc_seen scene.now self.old) name.now value
            ≡ written text (doc_seen scene.now self.new)) }
    {
        match value {
            Some(value) => {
                let name = lowercase(alloc, name)?;
                self.ssi.put(name.as_slice(), value)?;
                Ok(None)
            }
            None => {
                let text = self.oops(alloc, scene)?;
                Ok(text)
            }
        }
    }

    pub(crate) fn set(
        &mut self,
        alloc: Global,
        scene: &Scene<'_>,
        vars: &VarTable,
        ps: &[Param],
    ) -> Result<Option<ByteText>, OutOfMemory>
        ensures { IfOk result (λ text. Writes scene.now vars.now
            (λ w. set_done w (doc_seen scene.now self.old) ps.now) text self.new) }
    {
        filled_settles();
        let value = self.filled_in(alloc, scene, vars, text_of(b"value", ps))?;
        let text = self.keep(alloc, scene, text_of(b"var", ps), value)?;
        Ok(text)
    }
}
