// What levels make, by the code: from the text of their directives.
use crate::samples::text;
use byte_text::ByteText;
use conf_text::{ConfFault, FaultKind, parse};
use conf_values::TextSet;
use ngx_pattern::{CrateMaker, PatternSet};
use rewrite_compile::{CompileError, Compiled, compile};
use site_model::RewriteStep;
use std::alloc::Global;
use std::process::Abort;
use std::test::Fail;

/// A directive of a program, with the number of those in its block, of its block's level, or of its pattern.
fn step_text(alloc: Global, step: &RewriteStep) -> Result<ByteText, Fail> {
    let word = match step {
        RewriteStep::Set { .. } => format!(in alloc; "set ")?,
        RewriteStep::If {
            block,
            level: Some(level),
            ..
        } => format!(in alloc; "if:{block}@{level} ")?,
        RewriteStep::If {
            block,
            level: None,
            ..
        } => format!(in alloc; "if:{block} ")?,
        RewriteStep::Rewrite { pattern, .. } => format!(in alloc; "rewrite:{pattern} ")?,
        RewriteStep::Return { code, .. } => format!(in alloc; "return:{code} ")?,
        RewriteStep::Stop => format!(in alloc; "break ")?,
    };
    Ok(ByteText::from_vec(word.into_bytes()))
}

fn program_text(alloc: Global, made: &Compiled) -> Result<ByteText, Fail> {
    let mut out = ByteText::new(alloc);
    for step in made.program.as_slice() {
        out.extend(step_text(alloc, step)?.as_slice())?;
    }
    for line in &made.lines {
        let number = line.line;
        out.extend(format!(in alloc; "{number}")?.as_bytes())?;
    }
    Ok(out)
}

fn fault_text(alloc: Global, fault: &ConfFault) -> Result<ByteText, Fail> {
    let word = match fault.kind {
        FaultKind::BadValue => "value",
        FaultKind::BuiltinSet => "built in",
        FaultKind::Pattern => "pattern",
        _ => "other",
    };
    let line = fault.line;
    Ok(ByteText::from_vec(format!(in alloc; "{word} {line}")?.into_bytes()))
}

/// The program of a level whose blocks are numbered from here on, and its lines; or its fault.
fn made(alloc: Global, level: &[u8], first_block: Option<u32>) -> Result<ByteText, Fail> {
    let level = parse(alloc, 0, level).ok().ok_or("no directives")?;
    let mut known = TextSet::new(alloc);
    known.add(b"a")?;
    let mut maker = CrateMaker::new();
    let mut patterns = PatternSet::new(alloc);
    let made = compile(
        alloc,
        &known,
        &mut maker,
        &mut patterns,
        level.as_slice(),
        first_block,
    );
    match made {
        Ok(made) => program_text(alloc, &made),
        Err(CompileError::Fault(fault)) => fault_text(alloc, &fault),
        Err(CompileError::TooBig(_)) => text(alloc, b"too big"),
        Err(CompileError::OutOfMemory) => text(alloc, b"no memory"),
    }
}

fn are(rt: &impl Abort, alloc: Global, cases: &[(&[u8], bool, &[u8])]) -> Result<(), Fail> {
    for (level, in_location, expected) in cases {
        let first_block = if *in_location { Some(7) } else { None };
        let made = made(alloc, level, first_block)?;
        assert_eq!(rt; made.as_slice(), *expected);
    }
    Ok(())
}

#[test]
fn levels_make_programs(rt: HostRuntime) -> Result<(), Fail> {
    let alloc = rt.alloc();
    are(
        &rt,
        alloc,
        &[
            (b"root /w;\nreturn 444;", false, b"return:444 2"),
            (
                b"if (-f /w/up) { return 503; }\nlocation / { return 200; }",
                false,
                b"if:1 return:503 11",
            ),
            (
                b"if ($uri ~ ^/a) { set $a 1; root /w;\nbreak; }\nif ($a) { }\nrewrite ^ /x;",
                true,
                b"if:2@7 set break if:0@8 rewrite:1 11234",
            ),
            (b"set $uri x;\nset b x;", false, b"built in 1"),
            (b"set $a 1;\nrewrite ( $none;", false, b"value 2"),
            (b"rewrite ( /x;\nset $uri x;", false, b"pattern 1"),
            (b"if ($a) {\nreturn 99; }\nreturn 1;", true, b"value 2"),
        ],
    )
}
