// Directives of a program whose patterns aren't read yet.
use byte_text::ByteText;
use conf_text::FaultKind;
use ngx_variables::{Piece, Value};
use site_model::{FileTest, Flag};

/// A regular expression as it is written, and whether letters match in either case.
#[derive(Drop)]
pub struct RawPattern {
    pub text: ByteText,
    pub nocase: bool,
}

/// The condition of an `if`, without its `!`.
#[derive(Drop)]
pub enum RawTest {
    IsSet(Piece),
    Equals {
        variable: Piece,
        text: Value,
    },
    Matches {
        variable: Piece,
        pattern: RawPattern,
    },
    OnFile {
        test: FileTest,
        path: Value,
    },
}

#[derive(Drop)]
pub struct RawCondition {
    pub test: RawTest,
    pub negated: bool,
}

/// A directive of a program. The directives in the block of an `if` are its block's.
#[derive(Drop)]
pub enum RawStep {
    Set {
        name: ByteText,
        text: Value,
    },
    If(RawCondition),
    Rewrite {
        pattern: RawPattern,
        to: Value,
        is_url: bool,
        flag: Flag,
    },
    Return {
        code: u16,
        text: Option<Value>,
    },
    Stop,
}

/// What the words of a directive say, or what is wrong with them.
#[derive(Drop)]
pub enum Reading {
    Step(RawStep),
    Wrong(FaultKind),
}
