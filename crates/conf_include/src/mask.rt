// Masks of names.
ghost use Rattle.std.specs.Prelude.{◌≡◌, ◌+◌, ◌∷◌, ℕ, List, length, IfOk, vec_len};
ghost use Rattle.conf_include.specs.Masks.{matches};
ghost use Rattle.conf_include.specs.Steps.{IsRow};

use byte_text::OutOfMemory;
use std::alloc::Global;

/// What a mask's end matches becomes what it matches with `*` before it. A row tells of each end of a name, the longest
/// first, whether the mask matches it.
fn put_star(row: &mut [bool])
    ensures { (mask name : List ℕ) → IsRow mask name row.old → IsRow (42 ∷ mask) name row.new }
{
    let mut at = row.len();
    let mut some = false;
    while at > 0 {
        at -= 1;
        some = row[at] || some;
        row[at] = some;
    }
}

/// The same with another byte before it.
fn put_byte(row: &mut [bool], byte: u8, name: &[u8])
    requires { length row.old ≡ length name.now + 1 }
    ensures { (mask : List ℕ) → IsRow mask name.now row.old → (byte ≡ 42 → ⊥)
        → IsRow (byte ∷ mask) name.now row.new }
{
    for (i, other) in name.iter().enumerate() {
        row[i] = (byte == b'?' || byte == *other) && row[i + 1];
    }
    row[name.len()] = false;
}

/// Whether a mask matches a name: `*` means any bytes, none too, `?` one byte, each other byte itself. Takes
/// time in proportion to the product of their lengths.
pub fn matches(alloc: Global, mask: &[u8], name: &[u8]) -> Result<bool, OutOfMemory>
    ensures { IfOk result (λ b. b ≡ matches mask.now name.now) }
{
    let mut flags = vec![in alloc; false; name.len() + 1]?;
    let row = flags.as_mut_slice();
    row[name.len()] = true;
    let mut at = mask.len();
    while at > 0 {
        at -= 1;
        if mask[at] == b'*' {
            put_star(row);
        } else {
            put_byte(row, mask[at], name);
        }
    }
    Ok(row[0])
}
