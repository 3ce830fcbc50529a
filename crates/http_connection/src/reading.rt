// The block of a file that a job asks for.
ghost use Rattle.std.specs.Prelude.{◌≡◌, ◌≤◌, ℕ, List, OnOk, IsErrOf, Some, option_copied};
ghost use Rattle.file_tree.specs.declared.job.Ask.TheVariants.{Read as AskRead};
ghost use Rattle.ngx_outside.specs.Causes.{HasCause};
ghost use Rattle.ngx_outside.specs.Outside.{Grow, Lends, Reads};
ghost use Rattle.ngx_outside.specs.Records.{Adds, Failed as NotRead, ReadTold, block_answer};
ghost use Rattle.ngx_outside.specs.Stepped.{IsReading};
ghost use Rattle.ngx_outside.specs.declared.files.FileFault.TheVariants.{Failed as ReadFailed};
ghost use Rattle.http_connection.specs.Reads.{AsksWithin};

use byte_text::ByteQueue;
use file_tree::Ask;
use ngx_outside::{FileFault, Files};

/// No block of a file has more bytes.
const MOST: u64 = 16384;

// For how many bytes a job asks, as far as a block has as many.
pub(crate) fn count_asked(ask: Option<&Ask>) -> usize {
    match ask {
        Some(
            Ask::Read {
                path: _,
                start: _,
                count,
                of: _,
            },
        ) => (*count).min(MOST) as usize,
        Some(Ask::Stat { path: _, of: _ }) => 0,
        None => 0,
    }
}

// Has the files lend the block that a job asks for.
pub(crate) fn lend_block<F: Files>(ask: Option<&Ask>, files: &mut F) -> Result<(), FileFault>
    requires reads { IsReading (option_copied ask) }
    requires known { AsksWithin (F.seen files.old).newest (option_copied ask) }
    ensures bytes { (path : List ℕ) (start count of : ℕ) →
        option_copied ask.entry ≡ Some (AskRead path start count of) → Lends (F.seen files.old).tells
        ((F.seen files.old).trees of) path start count (F.seen files.new).block result }
    ensures answers { Adds (block_answer (F.seen files.new).block result)
        (F.seen files.old).answers (F.seen files.new).answers }
    ensures tells { (F.seen files.new).tells ≡ (F.seen files.old).tells }
    ensures versions { (F.seen files.new).versions ≡ (F.seen files.old).versions }
    ensures grow { Grow (F.seen files.old).newest (F.seen files.new).newest
        (F.seen files.old).trees (F.seen files.new).trees }
    ensures cause { HasCause (F.seen files.old).faults (F.seen files.new).faults result ReadFailed }
{
    match ask {
        Some(
            Ask::Read {
                path,
                start,
                count,
                of,
            },
        ) => files.read_block(path.as_slice(), *start, *count, *of),
        Some(Ask::Stat { path: _, of: _ }) => unreachable!(),
        None => unreachable!(),
    }
}

// Has the files add the block that a job asks for to the bytes for the peer.
pub(crate) fn add_block<F: Files>(
    ask: Option<&Ask>,
    files: &mut F,
    out: &mut ByteQueue,
) -> Result<(), FileFault>
    requires reads { IsReading (option_copied ask) }
    requires known { AsksWithin (F.seen files.old).newest (option_copied ask) }
    ensures bytes { (path : List ℕ) (start count of : ℕ) →
        option_copied ask.entry ≡ Some (AskRead path start count of) → Reads (F.seen files.old).tells
        ((F.seen files.old).trees of) path start count out.old out.new result }
    ensures told { OnOk result (ReadTold out.old out.new result (F.seen files.old).answers
        (F.seen files.new).answers) }
    ensures failed { IsErrOf result ReadFailed → Adds NotRead (F.seen files.old).answers
        (F.seen files.new).answers }
    ensures tells { (F.seen files.new).tells ≡ (F.seen files.old).tells }
    ensures versions { (F.seen files.new).versions ≡ (F.seen files.old).versions }
    ensures grow { Grow (F.seen files.old).newest (F.seen files.new).newest
        (F.seen files.old).trees (F.seen files.new).trees }
    ensures cause { HasCause (F.seen files.old).faults (F.seen files.new).faults result ReadFailed }
{
    match ask {
        Some(
            Ask::Read {
                path,
                start,
                count,
                of,
            },
        ) => files.read_to(path.as_slice(), *start, *count, *of, out),
        Some(Ask::Stat { path: _, of: _ }) => unreachable!(),
        None => unreachable!(),
    }
}
