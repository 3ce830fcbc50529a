// Texts of the fields of a request's head.
ghost use Rattle.std.specs.Prelude.{◌≡◌, ℕ, ◌+◌, ◌<◌, ◌≤◌, List, [], ◌∷◌, ◌++◌, codes, length, OnOk, OnErr, option_map};
ghost use Rattle.http_header.specs.HeaderMap.{get_all};
ghost use Rattle.ngx_variables.specs.Grammar.{lowercase};
ghost use Rattle.ngx_variables.specs.Pairs.{cookie};
ghost use Rattle.ngx_variables.specs.Texts.{first_field, joined_fields};

use crate::argument::cookie_in;
use byte_text::{ByteText, OutOfMemory};
use req_head::HeadFields;

/// The first field of a name, or empty.
#[tactic(auto, unfolding(crate::specs::Texts::first_field))]
pub(crate) fn first_field<'a>(fields: &'a HeadFields, name: &[u8]) -> &'a [u8]
    ensures { result.now ≡ first_field fields.now (lowercase name.now) }
{
    fields.first(name).unwrap_or(b"")
}

/// Writes all fields of a name, with `, ` between them.
#[tactic(auto, unfolding(crate::specs::Texts::joined_fields, crate::specs::Texts::behind_comma))]
pub(crate) fn append_fields(
    fields: &HeadFields,
    name: &[u8],
    out: &mut ByteText,
) -> Result<(), OutOfMemory>
    ensures { OnOk result (out.new
        ≡ out.old ++ joined_fields (get_all fields.now (lowercase name.now))) }
{
    let mut values = fields.values(name);
    if let Some(first) = values.next() {
        out.extend(first)?;
        while let Some(value) = values.next() {
            out.extend(b", ")?;
            out.extend(value)?;
        }
    }
    Ok(())
}

/// The value of a cookie, in the first of the fields that has it.
#[tactic(auto, unfolding(crate::specs::Pairs::cookie))]
pub(crate) fn cookie<'a>(fields: &'a HeadFields, name: &[u8]) -> Option<&'a [u8]>
    ensures { option_map (λ value. value.now) result
        ≡ cookie name.now (get_all fields.now (codes "cookie")) }
{
    let mut values = fields.values(b"cookie");
    while let Some(field) = values.next() {
        if let Some(value) = cookie_in(name, field) {
            return Some(value);
        }
    }
    None
}
