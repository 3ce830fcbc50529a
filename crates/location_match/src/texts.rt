// Texts with the numbers of their locations, before they are put in order.
ghost use Rattle.std.specs.Prelude.{◌≡◌, ℕ, List, IfOk, OnOk};
ghost use Rattle.location_match.specs.Ordered.{AreInOrder, HaveSameNumbers};

use byte_text::{ByteText, OutOfMemory};

/// The text of a location, and the location's number.
#[derive(Debug, Drop)]
pub struct NumberedText {
    pub text: ByteText,
    pub number: u32,
}

// Puts them in the order of their bytes; those that are equal stay in the order that they have.
pub(crate) fn sort_texts(texts: &mut Vec<NumberedText>) -> Result<(), OutOfMemory>
    ensures sorted { OnOk result (AreInOrder texts.new.items) }
    ensures same { OnOk result (HaveSameNumbers texts.old.items texts.new.items) }
{
    texts.sort_by(|a, b| a.text.as_slice().cmp(b.text.as_slice()))?;
    Ok(())
}
