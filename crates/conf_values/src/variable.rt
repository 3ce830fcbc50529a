// The names of variables as words of directives.
ghost use Rattle.std.specs.Prelude.{◌≡◌, IfOk};
ghost use Rattle.std.specs.List.{list_all};
ghost use Rattle.site_model.specs.ngx_variables.Grammar.{is_name_byte as name_byte, lowercase as lowercase_of};
ghost use Rattle.conf_values.specs.TextSet.{holds};
ghost use Rattle.conf_values.specs.Variables.{is_name, variable_in, is_known_name};

use crate::text_set::TextSet;
use byte_text::{ByteText, OutOfMemory};
use site_model::ngx_variables::is_builtin;
use std::alloc::Global;

fn is_name_byte(byte: u8) -> bool
    ensures { result ≡ name_byte byte }
{
    byte.is_ascii_alphanumeric() || byte == b'_'
}

fn are_name_bytes(bytes: &[u8]) -> bool
    ensures { result ≡ list_all name_byte bytes.now }
{
    for byte in bytes {
        if !is_name_byte(*byte) {
            return false;
        }
    }
    true
}

fn is_name(bytes: &[u8]) -> bool
    ensures { result ≡ is_name bytes.now }
{
    !bytes.is_empty() && are_name_bytes(bytes)
}

/// A text in lower case.
pub fn lowercase(alloc: Global, text: &[u8]) -> Result<ByteText, OutOfMemory>
    ensures { IfOk result (λ lower. lower ≡ lowercase_of text.now) }
{
    let mut bytes = text.to_vec(alloc)?;
    bytes.as_mut_slice().make_ascii_lowercase();
    Ok(ByteText::from_vec(bytes))
}

/// The variable of a word `$NAME`, in lower case.
#[tactic(auto, unfolding(crate::specs::Variables::variable_in))]
pub fn variable_in(alloc: Global, word: &[u8]) -> Result<Option<ByteText>, OutOfMemory>
    ensures { IfOk result (λ name. name ≡ variable_in word.now) }
{
    match word {
        [] => Ok(None),
        [first, name @ ..] => {
            if *first == b'$' && is_name(name) {
                Ok(Some(lowercase(alloc, name)?))
            } else {
                Ok(None)
            }
        }
    }
}

/// Whether a word is a variable that is built in, or of a known name.
pub fn is_variable(alloc: Global, known: &TextSet, word: &[u8]) -> Result<bool, OutOfMemory>
    ensures { IfOk result (λ r. r ≡ is_known_name (holds known.now.keys) (variable_in word.now)) }
{
    match variable_in(alloc, word)? {
        None => Ok(false),
        Some(name) => Ok(is_builtin(name.as_slice()) || known.has(name.as_slice())),
    }
}
