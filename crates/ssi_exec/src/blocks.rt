// Blocks, and the text and the commands inside them.
ghost use Rattle.std.specs.Prelude.{◌≡◌, ℕ, ◌+◌, ◌<◌, ◌≤◌, ◌++◌, ◌==◌, ◌&&◌, codes, bytes_eq, nat_lt, List, [], map, IfOk, OnOk, Some, None, length, option_map, if◌then◌else◌};
ghost use Rattle.ssi_exec.specs.declared.document.Scene.{Scene as SceneView};
ghost use Rattle.request_meaning.specs.Bodies.{bad_part, body, text_part};
ghost use Rattle.request_meaning.specs.Serving.{World};
ghost use Rattle.ssi_text.specs.Marks.{Mark, Byte};
ghost use Rattle.request_meaning.specs.Commands.{block_closed, block_command, block_grown, others_size};
ghost use Rattle.ssi_exec.specs.Scenes.{block_seen, bytes_then, doc_seen, written};

use crate::document::{Document, OpenBlock, Scene};
use crate::words::is_word;
use byte_text::{ByteText, OutOfMemory};
use ssi_text::Param;
use ssi_values::Table;
use std::alloc::Global;

/// The most bytes that the blocks of a document have together.
const BLOCKS_LIMIT: usize = 32768;

/// Whether the blocks of other names have more bytes with these than they may.
#[tactic(auto, unfolding(request_meaning::specs::Commands::others_size))]
fn is_over(blocks: &Table, name: &[u8], size: usize) -> bool
    ensures { result ≡ nat_lt 32768 (others_size name.now blocks.now + size) }
{
    if size > BLOCKS_LIMIT {
        return true;
    }
    blocks.is_over(name, BLOCKS_LIMIT - size)
}

/// Whether a command ends a block.
fn is_end(name: &[u8], ps: &[Param]) -> bool
    ensures { result ≡ ((length ps.now == 0) && bytes_eq name.now (codes "endblock")) }
{
    ps.is_empty() && is_word(name, b"endblock")
}

/// A block with more bytes after its own.
fn grown(block: OpenBlock, more: &[u8]) -> Result<OpenBlock, OutOfMemory>
    ensures { IfOk result (λ b. block_seen b ≡ (block.name, block.bytes ++ more.now)) }
{
    let OpenBlock { name, mut bytes } = block;
    bytes.extend(more)?;
    Ok(OpenBlock { name, bytes })
}

impl Document {
    /// Opens a block.
    pub(crate) fn open_block(&mut self, alloc: Global, name: &[u8]) -> Result<(), OutOfMemory>
        ensures { OnOk result ((scene : SceneView) → doc_seen scene self.new
            ≡ record (doc_seen scene self.old) { block = Some (name.now, []) }) }
    {
        let name = ByteText::from_slice(alloc, name)?;
        let bytes = ByteText::new(alloc);
        self.block = Some(OpenBlock { name, bytes });
        Ok(())
    }

    /// Keeps a block under its name, in place of one that has it, unless the blocks would have more bytes than they may.
    #[tactic(auto, unfolding(request_meaning::specs::Commands::block_closed))]
    fn close_block(
        &mut self,
        alloc: Global,
        scene: &Scene<'_>,
        block: OpenBlock,
    ) -> Result<Option<ByteText>, OutOfMemory>
        ensures { IfOk result (λ text.
            block_closed (doc_seen scene.now self.old) block.name block.bytes
            ≡ written text (doc_seen scene.now self.new)) }
    {
        let OpenBlock { name, bytes } = block;
        self.block = None;
        if is_over(&self.blocks, name.as_slice(), bytes.len()) {
            let text = self.oops(alloc, scene)?;
            return Ok(text);
        }
        self.blocks.put(name.as_slice(), bytes)?;
        Ok(None)
    }

    /// Opens a block again with more bytes.
    fn grow_block(&mut self, block: OpenBlock, more: &[u8]) -> Result<(), OutOfMemory>
        ensures { OnOk result ((scene : SceneView) → doc_seen scene self.new
            ≡ block_grown (doc_seen scene self.old) block.name block.bytes more.now) }
    {
        let block = grown(block, more)?;
        self.block = Some(block);
        Ok(())
    }

    /// A command inside a block: all but `endblock` add the error text to it.
    #[inline(never)]
    pub(crate) fn block_command(
        &mut self,
        alloc: Global,
        scene: &Scene<'_>,
        block: OpenBlock,
        name: &[u8],
        ps: &[Param],
    ) -> Result<Option<ByteText>, OutOfMemory>
        ensures { IfOk result (λ text.
            block_command (doc_seen scene.now self.old) block.name block.bytes name.now ps.now
            ≡ written text (doc_seen scene.now self.new)) }
    {
        if is_end(name, ps) {
            let closed = self.close_block(alloc, scene, block)?;
            return Ok(closed);
        }
        let text = self.error_text(alloc, scene)?;
        self.grow_block(block, text.as_slice())?;
        Ok(None)
    }

    /// Text of the document, in whatever pieces it comes: whether it is written as it is. In a block it is kept.
    #[tactic(auto, unfolding(request_meaning::specs::Bodies::text_part))]
    pub fn text(&mut self, text: &[u8]) -> Result<bool, OutOfMemory>
        ensures part { IfOk result (λ live. (scene : SceneView)
            → text_part (doc_seen scene self.old) text.now (doc_seen scene self.old).block
            ≡ written (if live then Some text.now else None) (doc_seen scene self.new)) }
        ensures marks { IfOk result (λ live. (scene : SceneView) (w : World) (rest : List Mark)
            → body w (doc_seen scene self.old) (map Byte text.now ++ rest)
            ≡ bytes_then live text.now (body w (doc_seen scene self.new) rest)) }
    {
        match self.block.take() {
            Some(block) => {
                self.grow_block(block, text)?;
                Ok(false)
            }
            None => Ok(self.is_live()),
        }
    }

    /// A command that isn't well formed.
    #[tactic(auto, unfolding(request_meaning::specs::Bodies::bad_part))]
    pub(crate) fn bad(
        &mut self,
        alloc: Global,
        scene: &Scene<'_>,
    ) -> Result<Option<ByteText>, OutOfMemory>
        ensures { IfOk result (λ text.
            bad_part (doc_seen scene.now self.old) (doc_seen scene.now self.old).block
            ≡ written text (doc_seen scene.now self.new)) }
    {
        match self.block.take() {
            Some(block) => {
                let text = self.error_text(alloc, scene)?;
                self.grow_block(block, text.as_slice())?;
                Ok(None)
            }
            None => {
                let text = self.live_oops(alloc, scene)?;
                Ok(text)
            }
        }
    }
}
