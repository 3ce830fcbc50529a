// What the words of directives say, by the code.
use crate::samples::text;
use byte_text::ByteText;
use conf_text::FaultKind;
use conf_values::TextSet;
use rewrite_compile::{
    RawStep, RawTest, Reading, break_reading, if_reading, return_reading, rewrite_reading,
    set_reading,
};
use std::alloc::Global;
use std::process::Abort;
use std::test::Fail;

fn said(alloc: Global, known: &TextSet, name: &[u8], words: &[ByteText]) -> Result<Reading, Fail> {
    if name == b"set".as_slice() {
        Ok(set_reading(alloc, known, words)?)
    } else if name == b"if".as_slice() {
        Ok(if_reading(alloc, known, words)?)
    } else if name == b"rewrite".as_slice() {
        Ok(rewrite_reading(alloc, known, words)?)
    } else if name == b"return".as_slice() {
        Ok(return_reading(alloc, known, words)?)
    } else {
        Ok(break_reading(words))
    }
}

/// What a line says, its words divided by `|`, the first the directive's name.
fn reading(alloc: Global, line: &[u8]) -> Result<Reading, Fail> {
    let mut known = TextSet::new(alloc);
    known.add(b"x")?;
    let mut words: Vec<ByteText> = Vec::new(alloc);
    for word in line.split(|b| *b == b'|') {
        words.push(text(alloc, word)?)?;
    }
    match words.as_slice() {
        [] => Ok(break_reading(&[])),
        [name, words @ ..] => said(alloc, &known, name.as_slice(), words),
    }
}

/// A letter for each kind of directive and of fault.
fn letter(reading: &Reading) -> u8 {
    match reading {
        Reading::Wrong(FaultKind::BuiltinSet) => b'!',
        Reading::Wrong(_) => b'-',
        Reading::Step(RawStep::Set { .. }) => b's',
        Reading::Step(RawStep::Rewrite { .. }) => b'w',
        Reading::Step(RawStep::Return { .. }) => b'r',
        Reading::Step(RawStep::Stop) => b'b',
        Reading::Step(RawStep::If(condition)) => match condition.test {
            RawTest::IsSet(_) => b'v',
            RawTest::Equals { .. } => b'=',
            RawTest::Matches { .. } => b'~',
            RawTest::OnFile { .. } => b'f',
        },
    }
}

fn are(rt: &impl Abort, alloc: Global, cases: &[(&[u8], u8)]) -> Result<(), Fail> {
    for (line, expected) in cases {
        let reading = reading(alloc, line)?;
        assert_eq!(rt; letter(&reading), *expected);
    }
    Ok(())
}

#[test]
fn words_say_directives(rt: HostRuntime) -> Result<(), Fail> {
    let alloc = rt.alloc();
    are(
        &rt,
        alloc,
        &[
            (b"set|$x|a", b's'),
            (b"set|$uri|a", b'!'),
            (b"set|x|a", b'-'),
            (b"set|$x|$nope", b'-'),
            (b"if|($x)", b'v'),
            (b"if|(|$x|)", b'v'),
            (b"if|($x|=|a b)", b'='),
            (b"if|($x|!~*|^a)", b'~'),
            (b"if|(-f|$uri)", b'f'),
            (b"if|(!-d|/a)", b'f'),
            (b"if|(x = y)", b'-'),
            (b"if|($uri === y)", b'-'),
            (b"if|$x", b'-'),
            (b"rewrite|^/a|/b|last", b'w'),
            (b"rewrite|(|$uri|bad", b'-'),
            (b"return|200|ok", b'r'),
            (b"return|http://h", b'r'),
            (b"return|ok", b'-'),
            (b"break", b'b'),
        ],
    )
}
