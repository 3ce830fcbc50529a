use crate::samples::{main_request, place, request, text, value};
use byte_text::ByteText;
use file_tree::Node;
use ngx_variables::{EvalFault, Value, VarTable};
use site_model::{IndexName, LastTry, Tries};
use std::alloc::Global;
use std::process::Abort;
use std::test::Fail;
use try_index::{IndexState, IndexStep, Scene, TryState, TryStep, default_index};

/// What a step says, in one text.
fn try_text(alloc: Global, step: Result<TryStep, EvalFault>) -> Result<ByteText, Fail> {
    match step {
        Ok(TryStep::Probe(path)) => Ok(path),
        Ok(TryStep::Use(name)) => joined(alloc, b"use ", name),
        Ok(TryStep::Redirect { path, args }) => joined(alloc, args.as_slice(), path),
        Ok(TryStep::Named(name)) => joined(alloc, b"@", name),
        Ok(TryStep::Status(_)) => text(alloc, b"status"),
        Err(EvalFault::TooLong) => text(alloc, b"too long"),
        Err(EvalFault::OutOfMemory) => text(alloc, b"out of memory"),
    }
}

fn index_text(alloc: Global, step: Result<IndexStep, EvalFault>) -> Result<ByteText, Fail> {
    match step {
        Ok(IndexStep::Probe(path)) => Ok(path),
        Ok(IndexStep::Redirect(path)) => joined(alloc, b"to ", path),
        Ok(IndexStep::NoneFound) => text(alloc, b"none"),
        Err(EvalFault::TooLong) => text(alloc, b"too long"),
        Err(EvalFault::OutOfMemory) => text(alloc, b"out of memory"),
    }
}

fn joined(alloc: Global, front: &[u8], back: ByteText) -> Result<ByteText, Fail> {
    let mut whole = text(alloc, front)?;
    whole.extend(back.as_slice())?;
    Ok(whole)
}

/// The names are tried with these answers; each step is as expected.
fn tries_go(
    rt: &impl Abort,
    alloc: Global,
    names: &[&[u8]],
    last: LastTry,
    steps: &[(Option<Node>, &[u8])],
) -> Result<(), Fail> {
    let main = main_request(alloc)?;
    let request = request(alloc)?;
    let place = place(alloc)?;
    let vars = VarTable::new(alloc);
    let mut compiled = Vec::new(alloc);
    for name in names {
        compiled.push(value(alloc, *name)?)?;
    }
    let tries = Tries {
        names: compiled,
        last,
    };
    let scene = Scene {
        place: &place,
        main: &main,
        request: &request,
        vars: &vars,
    };
    let mut state = TryState::new();
    for (answer, expected) in steps {
        let step = state.next(alloc, *answer, &tries, &scene);
        assert!(rt; try_text(alloc, step)?.as_slice() == *expected);
    }
    Ok(())
}

#[test]
fn names_are_tried_in_turn(rt: HostRuntime) -> Result<(), Fail> {
    let alloc = rt.alloc();
    tries_go(
        &rt,
        alloc,
        &[b"${uri}x", b"/a/../b", b"$uri"],
        LastTry::Location(text(alloc, b"f")?),
        &[
            (None, b"/w/d/x"),
            (Some(Node::Folder), b"/w/d"),
            (Some(Node::Folder), b"use /d/"),
        ],
    )?;
    tries_go(
        &rt,
        alloc,
        &[b"$uri"],
        LastTry::Path(value(alloc, b"/n?b=$args")?),
        &[(None, b"/w/d"), (Some(Node::Locked), b"b=a=1/n")],
    )?;
    tries_go(&rt, alloc, &[], LastTry::Code(404), &[(None, b"status")])
}

/// The names of an index are tried with these answers; each step is as expected.
fn index_goes(
    rt: &impl Abort,
    alloc: Global,
    names: &[IndexName],
    steps: &[(Option<Node>, &[u8])],
) -> Result<(), Fail> {
    let main = main_request(alloc)?;
    let request = request(alloc)?;
    let place = place(alloc)?;
    let vars = VarTable::new(alloc);
    let scene = Scene {
        place: &place,
        main: &main,
        request: &request,
        vars: &vars,
    };
    let mut state = IndexState::new();
    for (answer, expected) in steps {
        let step = state.next(alloc, *answer, names, &scene);
        assert!(rt; index_text(alloc, step)?.as_slice() == *expected);
    }
    Ok(())
}

fn index_name(text: Value, is_path: bool) -> IndexName {
    IndexName { text, is_path }
}

#[test]
fn index_names_are_tried_in_turn(rt: HostRuntime) -> Result<(), Fail> {
    let alloc = rt.alloc();
    let names = default_index(alloc)?;
    index_goes(
        &rt,
        alloc,
        names.as_slice(),
        &[(None, b"/w/d/index.html"), (Some(Node::Missing), b"none")],
    )?;
    let mut names = Vec::new(alloc);
    names.push(index_name(value(alloc, b"i.$args")?, false))?;
    names.push(index_name(value(alloc, b"j")?, false))?;
    names.push(index_name(value(alloc, b"/k")?, true))?;
    index_goes(
        &rt,
        alloc,
        names.as_slice(),
        &[
            (None, b"/w/d/i.a=1"),
            (Some(Node::Folder), b"/w/d/j"),
            (Some(Node::Missing), b"to /k"),
        ],
    )?;
    index_goes(
        &rt,
        alloc,
        names.as_slice(),
        &[(None, b"/w/d/i.a=1"), (Some(Node::Locked), b"to /d/i.a=1")],
    )
}
