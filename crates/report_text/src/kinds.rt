// The kinds of faults, each by its number and its name.
ghost use Rattle.std.specs.Prelude.{◌≡◌};
ghost use Rattle.report_text.specs.Kinds.{script_kind_text, conf_kind_text};

use conf_text::FaultKind as ConfKind;
use replay_text::FaultKind as ScriptKind;

#[tactic(auto, unfolding(crate::specs::Kinds::script_kind_text))]
pub fn script_kind_text(kind: ScriptKind) -> &'static [u8]
    ensures { result.now ≡ script_kind_text kind }
{
    match kind {
        ScriptKind::Section => b"1 Section",
        ScriptKind::Word => b"2 Word",
        ScriptKind::Number => b"3 Number",
        ScriptKind::Escape => b"4 Escape",
    }
}

#[tactic(auto, unfolding(crate::specs::Kinds::conf_kind_text))]
pub fn conf_kind_text(kind: ConfKind) -> &'static [u8]
    ensures { result.now ≡ conf_kind_text kind }
{
    match kind {
        ConfKind::UnexpectedEnd => b"1 UnexpectedEnd",
        ConfKind::UnexpectedBrace => b"2 UnexpectedBrace",
        ConfKind::UnexpectedSemicolon => b"3 UnexpectedSemicolon",
        ConfKind::TokenTooLong => b"4 TokenTooLong",
        ConfKind::BadQuote => b"5 BadQuote",
        ConfKind::NotThere => b"6 NotThere",
        ConfKind::TooDeep => b"7 TooDeep",
        ConfKind::TooMany => b"8 TooMany",
        ConfKind::TooLarge => b"9 TooLarge",
        ConfKind::ReadFault => b"10 ReadFault",
        ConfKind::Unknown => b"11 Unknown",
        ConfKind::NotHere => b"12 NotHere",
        ConfKind::Count => b"13 Count",
        ConfKind::Duplicate => b"14 Duplicate",
        ConfKind::BadValue => b"15 BadValue",
        ConfKind::Pattern => b"16 Pattern",
        ConfKind::NoServer => b"17 NoServer",
        ConfKind::BuiltinSet => b"18 BuiltinSet",
        ConfKind::TooNested => b"19 TooNested",
        ConfKind::PatternTooBig => b"20 PatternTooBig",
    }
}
