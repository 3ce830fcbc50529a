// The room of heads that are over.
ghost use Rattle.std.specs.Prelude.{◌≡◌, OnOk, IfOk};

use crate::fields::HeadFields;
use byte_text::{ByteText, OutOfMemory};
use httparse::spans::{EMPTY_HEADER_SPAN, HeaderSpan};
use std::alloc::Global;
use std::mem::replace;

/// The texts of a head that is over, for those of the next one.
#[derive(Drop)]
pub(crate) struct SpareTexts {
    pub(crate) alloc: Global,
    target: ByteText,
    host: ByteText,
    fields: HeadFields,
}

/// The room of heads that are over: the next one is read into it, so that a head takes memory only where one of its texts is longer
/// than those before. Its contents are of no meaning.
#[derive(Drop)]
pub struct HeadRoom {
    pub(crate) texts: SpareTexts,
    pub(crate) slots: [HeaderSpan; 64],
}

/// Puts a value in place of another.
fn put<T: Drop>(slot: &mut T, value: T)
    ensures { slot.new ≡ value }
{
    *slot = value;
}

/// These bytes, in the room of a text.
fn in_room(text: ByteText, bytes: &[u8]) -> Result<ByteText, OutOfMemory>
    ensures { IfOk result (λ t. t ≡ bytes.now) }
{
    let mut text = text;
    text.clear();
    text.extend(bytes)?;
    Ok(text)
}

impl SpareTexts {
    /// A target, in the room of the last one.
    #[inline(always)]
    pub(crate) fn target(&mut self, bytes: &[u8]) -> Result<ByteText, OutOfMemory>
        ensures { IfOk result (λ t. t ≡ bytes.now) }
    {
        let room = replace(&mut self.target, ByteText::new(self.alloc));
        Ok(in_room(room, bytes)?)
    }

    /// A host, in the room of the last one.
    pub(crate) fn host(&mut self, bytes: &[u8]) -> Result<ByteText, OutOfMemory>
        ensures { IfOk result (λ t. t ≡ bytes.now) }
    {
        let room = replace(&mut self.host, ByteText::new(self.alloc));
        Ok(in_room(room, bytes)?)
    }

    /// The room of the last fields.
    pub(crate) fn fields(&mut self) -> HeadFields {
        replace(&mut self.fields, HeadFields::new(self.alloc))
    }
}

impl HeadRoom {
    /// None. It takes no memory yet.
    pub fn new(alloc: Global) -> HeadRoom {
        HeadRoom {
            texts: SpareTexts {
                alloc,
                target: ByteText::new(alloc),
                host: ByteText::new(alloc),
                fields: HeadFields::new(alloc),
            },
            slots: [EMPTY_HEADER_SPAN; 64],
        }
    }

    /// Takes the room of a head that is over: of its target, its host, and its fields.
    pub fn keep(&mut self, target: ByteText, host: ByteText, fields: HeadFields) {
        put(&mut self.texts.target, target);
        put(&mut self.texts.host, host);
        put(&mut self.texts.fields, fields);
    }
}
