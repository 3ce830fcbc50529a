// Names of variables as they are in a text.
ghost use Rattle.std.specs.Prelude.{◌≡◌, ◌≤◌, length, IfSome, option_map};
ghost use Rattle.ngx_variables.specs.Grammar.{reference_at};
ghost use Rattle.ssi_values.specs.Known.{name_of};

use ngx_variables::reference_at;

/// A name after a `$`, and how many bytes it takes there, with its braces.
#[derive(Clone, Copy)]
pub struct Named<'a> {
    pub name: &'a [u8],
    pub size: usize,
}

/// The name whose `$` comes right before the text, if the text begins with one.
pub(crate) fn name_at(text: &[u8]) -> Option<Named<'_>>
    ensures value { option_map (λ n. (n.name.now, n.size)) result
        ≡ name_of text.now (reference_at text.now) }
    ensures within { IfSome result (λ n. n.size ≤ length text.now) }
{
    match reference_at(text) {
        Ok(reference) => Some(Named {
            name: &text[reference.start..reference.end],
            size: reference.size,
        }),
        Err(_) => None,
    }
}
