// Laws of what is shown of the bytes that are kept once a response is over.
ghost use Rattle.std.specs.Prelude.{ℕ};
ghost use Rattle.response_flow.specs.Flights.{ShowsMost, ShowsWhole};

/// What is shown of the bytes that are kept once a response is over is at most 65536 bytes, no fewer than end at any whole chunk
/// that fits, and stays shown whatever is written of it.
pub fn shown_are_most()
    ensures { (tail size : ℕ) → ShowsMost tail size }
{}

/// What is shown of the bytes that are kept once a response is over, whose body is in chunks, is all of them, or ends so that as
/// many bytes come after it as some chunks of whole blocks, of 4104 bytes each, and the body's tail have.
pub fn shown_end_whole()
    ensures { ShowsWhole }
{}
