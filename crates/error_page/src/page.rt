// The built-in page.
ghost use Rattle.std.specs.Prelude.{◌≡◌, ◌++◌, ◌≤◌, length, OnOk};
ghost use Rattle.error_page.specs.Page.{page_of, title_of};

use byte_text::{ByteText, OutOfMemory};
use itoa::Buffer;
use resp_head::page_phrase;

/// The status and its phrase, as `404 Not Found`.
#[tactic(auto, unfolding(crate::specs::Page::title_of))]
fn put_title(status: u16, out: &mut ByteText) -> Result<(), OutOfMemory>
    ensures { OnOk result (out.new ≡ out.old ++ title_of status) }
{
    out.extend(Buffer::new().format(status).as_bytes())?;
    out.push(b' ')?;
    out.extend(page_phrase(status))?;
    Ok(())
}

/// The length of what `put_title` appends.
fn title_len(status: u16) -> usize
    ensures exact { result ≡ length (title_of status) }
    ensures short { result ≤ 80 }
{
    Buffer::new().format(status).len() + 1 + page_phrase(status).len()
}

/// The length of the page that [`page_text`] appends. It takes no memory.
pub fn page_len(status: u16) -> u64
    ensures { result ≡ length (page_of status) }
{
    120 + 2 * title_len(status) as u64
}

/// Appends nginx's built-in page of a status, which is HTML; a status that nginx knows no phrase for has the empty one.
/// `out` grows once at most. After want of memory it holds some part of the page.
pub fn page_text(status: u16, out: &mut ByteText) -> Result<(), OutOfMemory>
    ensures { OnOk result (out.new ≡ out.old ++ page_of status) }
{
    out.reserve(120 + 2 * title_len(status))?;
    out.extend(b"<html>\r\n<head><title>")?;
    put_title(status, out)?;
    out.extend(b"</title></head>\r\n<body>\r\n<center><h1>")?;
    put_title(status, out)?;
    out.extend(b"</h1></center>\r\n<hr><center>nginx</center>\r\n</body>\r\n</html>\r\n")?;
    Ok(())
}
