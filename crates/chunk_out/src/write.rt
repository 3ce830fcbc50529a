// Chunks, written into reserved room.
ghost use Rattle.std.specs.Prelude.{◌≡◌, ℕ, ◌+◌, ◌<◌, ◌≤◌, false, List, [], ◌∷◌, ◌++◌, length, vec_len, vec_capacity};
ghost use Rattle.std.specs.Fmt.{digit_glyph};
ghost use Rattle.chunk_out.specs.Chunks.{hex, chunk, last_chunk};

/// How many bytes a block has.
pub const BLOCK: usize = 4096;

/// Adds bytes for which there is room.
pub fn append(out: &mut Vec<u8>, bytes: &[u8])
    requires { vec_len out.old + length bytes.now ≤ vec_capacity out.old }
    ensures items { out.new.items ≡ out.old.items ++ bytes.now }
    ensures len { vec_len out.new ≡ vec_len out.old + length bytes.now }
    ensures capacity { vec_capacity out.old ≤ vec_capacity out.new }
{
    match out.extend_from_slice(bytes) {
        Ok(()) => {}
        Err(_) => unreachable!(),
    }
}

fn glyph(digit: usize) -> u8
    requires { digit < 16 }
    ensures { result ≡ digit_glyph false digit }
{
    if digit < 10 {
        b'0' + digit as u8
    } else {
        87 + digit as u8
    }
}

/// Writes a size below 4096 in lower-case hexadecimal digits.
fn write_size(out: &mut Vec<u8>, size: usize)
    requires small { size < 4096 }
    requires room { vec_len out.old + 3 ≤ vec_capacity out.old }
    ensures items { out.new.items ≡ out.old.items ++ hex size }
    ensures len { vec_len out.new ≤ vec_len out.old + 3 }
    ensures capacity { vec_capacity out.old ≤ vec_capacity out.new }
{
    let low = glyph(size % 16);
    if size < 16 {
        append(out, &[low]);
        return;
    }
    let middle = glyph(size / 16 % 16);
    if size < 256 {
        append(out, &[middle, low]);
        return;
    }
    let high = glyph(size / 256);
    append(out, &[high, middle, low]);
}

/// Writes a whole block, which comes in two parts, as a chunk.
pub fn write_block(out: &mut Vec<u8>, front: &[u8], back: &[u8])
    requires whole { length front.now + length back.now ≡ 4096 }
    requires room { vec_len out.old + 4104 ≤ vec_capacity out.old }
    ensures items { out.new.items ≡ out.old.items ++ chunk (front.now ++ back.now) }
    ensures len { vec_len out.new ≡ vec_len out.old + 4104 }
    ensures capacity { vec_capacity out.old ≤ vec_capacity out.new }
{
    append(out, b"1000\r\n");
    append(out, front);
    append(out, back);
    append(out, b"\r\n");
}

/// Writes a block that isn't whole as a chunk.
pub fn write_rest(out: &mut Vec<u8>, rest: &[u8])
    requires small { length rest.now < 4096 }
    requires room { vec_len out.old + length rest.now + 7 ≤ vec_capacity out.old }
    ensures items { out.new.items ≡ out.old.items ++ chunk rest.now }
    ensures len { vec_len out.new ≤ vec_len out.old + length rest.now + 7 }
    ensures capacity { vec_capacity out.old ≤ vec_capacity out.new }
{
    write_size(out, rest.len());
    append(out, b"\r\n");
    append(out, rest);
    append(out, b"\r\n");
}

/// Writes the last chunk, after which no trailer lines come.
pub fn write_last(out: &mut Vec<u8>)
    requires { vec_len out.old + 5 ≤ vec_capacity out.old }
    ensures items { out.new.items ≡ out.old.items ++ last_chunk }
    ensures capacity { vec_capacity out.old ≤ vec_capacity out.new }
{
    append(out, b"0\r\n\r\n");
}
