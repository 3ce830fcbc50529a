// The phrase of each status.
ghost use Rattle.std.specs.Prelude.{◌≡◌};
ghost use Rattle.resp_head.specs.Phrases.{page_phrase_of, phrase_of};

/// The phrase of a status in nginx's status lines; any other status has the empty one (RFC 9112, 4).
#[tactic(auto, unfolding(crate::specs::Phrases::phrase_of, crate::specs::Phrases::phrase_in, crate::specs::Phrases::phrases))]
pub fn phrase(status: u16) -> &'static [u8]
    ensures { result.now ≡ phrase_of status }
{
    match status {
        200 => b"OK",
        201 => b"Created",
        202 => b"Accepted",
        204 => b"No Content",
        206 => b"Partial Content",
        301 => b"Moved Permanently",
        302 => b"Moved Temporarily",
        303 => b"See Other",
        304 => b"Not Modified",
        307 => b"Temporary Redirect",
        308 => b"Permanent Redirect",
        400 => b"Bad Request",
        401 => b"Unauthorized",
        402 => b"Payment Required",
        403 => b"Forbidden",
        404 => b"Not Found",
        405 => b"Not Allowed",
        406 => b"Not Acceptable",
        408 => b"Request Time-out",
        409 => b"Conflict",
        410 => b"Gone",
        411 => b"Length Required",
        412 => b"Precondition Failed",
        413 => b"Request Entity Too Large",
        414 => b"Request-URI Too Large",
        415 => b"Unsupported Media Type",
        416 => b"Requested Range Not Satisfiable",
        421 => b"Misdirected Request",
        429 => b"Too Many Requests",
        500 => b"Internal Server Error",
        501 => b"Not Implemented",
        502 => b"Bad Gateway",
        503 => b"Service Temporarily Unavailable",
        504 => b"Gateway Time-out",
        505 => b"HTTP Version Not Supported",
        _ => b"",
    }
}

/// The phrase of a status on nginx's built-in page, which differs for 302 and 401.
#[tactic(auto, unfolding(crate::specs::Phrases::page_phrase_of))]
pub fn page_phrase(status: u16) -> &'static [u8]
    ensures { result.now ≡ page_phrase_of status }
{
    match status {
        302 => b"Found",
        401 => b"Authorization Required",
        _ => phrase(status),
    }
}
