// What is wrong with a configuration, and where.
ghost use Rattle.std.specs.Prelude.{◌≡◌};
ghost use Rattle.conf_text.specs.declared.fault.ConfError.TheVariants.{OutOfMemory as NoMemory};

use byte_text::{ByteText, OutOfMemory};

/// What is wrong with a configuration: each kind of fault that reading one can meet, its text's first. A fault is printed with its
/// number here.
#[derive(Clone, Copy, Debug, PartialEq, Eq)]
pub enum FaultKind {
    /// The text ends within a word, a directive or a block.
    UnexpectedEnd = 1,
    /// A `{` with no word before it, or a `}` that ends no block or comes after a word.
    UnexpectedBrace,
    /// A `;` with no word before it.
    UnexpectedSemicolon,
    /// A word of more than 4096 bytes.
    TokenTooLong,
    /// A quoted word with something other than white space, `;`, `{` or `)` right after it.
    BadQuote,
    /// A file that is missing, or is no file that can be read.
    NotThere,
    /// Files that include each other too deep.
    TooDeep,
    /// Too many files.
    TooMany,
    /// Too much text in all.
    TooLarge,
    /// The outside failed while a file was read.
    ReadFault,
    /// A name that is no directive's: misspelt, or of a module that isn't known.
    Unknown,
    /// A directive in a place where it may not be.
    NotHere,
    /// A wrong number of parameters, or a block where none is due, or none where one is.
    Count,
    /// A second directive where one alone may be.
    Duplicate,
    /// A parameter that is no value of its directive.
    BadValue,
    /// A regular expression that is none.
    Pattern,
    /// No server in the configuration.
    NoServer,
    /// A built-in variable that is to be set.
    BuiltinSet,
    /// Blocks that nest more than 32 deep.
    TooNested,
    /// A regular expression that takes too much room.
    PatternTooBig,
}

/// A fault and its place: the number of its file, in the order in which files are read, and the line there, from 1;
/// and the word or the path that it is about, if there is one.
#[derive(Clone, Debug, Drop)]
pub struct ConfFault {
    pub kind: FaultKind,
    pub file: u32,
    pub line: u64,
    pub word: Option<ByteText>,
}

/// Why a configuration was not read: a fault of its own, or want of memory.
#[derive(Clone, Debug, Drop)]
pub enum ConfError {
    Fault(ConfFault),
    OutOfMemory,
}

impl From<OutOfMemory> for ConfError {
    ghost from_gives = { λ _ e. e ≡ NoMemory };

    fn from(_: OutOfMemory) -> Self {
        ConfError::OutOfMemory
    }
}
