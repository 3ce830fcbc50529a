// Laws of the chunked coding.
ghost use Rattle.chunk_out.specs.Laws.{ChunksAreABody, FeedsCompose, SizesAreChunkLines};

use body_frame::bodies_are_the_grammars;

/// The chunks of a body are a chunked body that carries just its bytes, and a reader finds its end whatever follows.
pub fn chunks_are_a_body()
    ensures { ChunksAreABody }
{
    bodies_are_the_grammars();
}

/// Feeding some bytes, all of which are taken, and then more is feeding both at once.
pub fn feeds_compose()
    ensures { FeedsCompose }
{}

/// The line of a chunk is a chunk's line of `httparse`'s grammar, and gives the chunk's size.
pub fn sizes_are_chunk_lines()
    ensures { SizesAreChunkLines }
{}
