//! Small programs, what runs them, and what they come to as a text.
use byte_text::ByteText;
use file_tree::Node;
use file_type::Types;
use http_moment::LocalDate;
use http_types::{Addr, Method, Version};
use ngx_pattern::{CrateMaker, PatternSet};
use ngx_variables::{FileRoot, Groups, Main, Piece, Request, Role, Value, VarTable};
use req_head::HeadFields;
use rewrite_code::{Ending, Progress, RunStep, Setting, resume, run};
use site_model::{FileTest, Flag, Level, Program, RewriteStep, Site, Test};
use std::alloc::Global;
use std::net::{IpAddr, Ipv4Addr};
use std::test::Fail;

/// A path at which a file is; nothing is at any other.
pub const THERE: &[u8] = b"/w/up";

pub fn text(alloc: Global, bytes: &[u8]) -> Result<ByteText, Fail> {
    Ok(ByteText::from_slice(alloc, bytes)?)
}

pub fn set(alloc: Global, name: &[u8], value: &[u8]) -> Result<RewriteStep, Fail> {
    Ok(RewriteStep::Set {
        name: text(alloc, name)?,
        text: Value::compile(alloc, value)?,
    })
}

pub fn when(test: Test, negated: bool, block: u32) -> RewriteStep {
    RewriteStep::If {
        test,
        negated,
        block,
        level: None,
    }
}

pub fn is_set(alloc: Global, name: &[u8]) -> Result<Test, Fail> {
    Ok(Test::IsSet(Piece::Set(text(alloc, name)?)))
}

pub fn on_file(alloc: Global, path: &[u8]) -> Result<Test, Fail> {
    Ok(Test::OnFile {
        test: FileTest::IsFile,
        path: Value::compile(alloc, path)?,
    })
}

pub fn matches(alloc: Global, name: &[u8], pattern: u32) -> Result<Test, Fail> {
    Ok(Test::Matches {
        variable: Piece::Set(text(alloc, name)?),
        pattern,
    })
}

pub fn returns(alloc: Global, code: u16, value: &[u8]) -> Result<RewriteStep, Fail> {
    Ok(RewriteStep::Return {
        code,
        text: Some(Value::compile(alloc, value)?),
    })
}

pub fn rewrites(
    alloc: Global,
    pattern: u32,
    to: &[u8],
    is_url: bool,
    flag: Flag,
) -> Result<RewriteStep, Fail> {
    Ok(RewriteStep::Rewrite {
        pattern,
        to: Value::compile(alloc, to)?,
        is_url,
        flag,
    })
}

/// `^/o/(.*)$`, and nine groups of which the first is there and empty, and the last took no part.
pub fn patterns(alloc: Global) -> Result<PatternSet, Fail> {
    let mut patterns = PatternSet::new(alloc);
    let mut maker = CrateMaker::new();
    for pattern in [
        b"^/o/(.*)$".as_slice(),
        b"^()(a)(b)(c)(d)(e)(f)(g)(z)?".as_slice(),
    ] {
        let _id = patterns
            .add(&mut maker, pattern, false)
            .ok()
            .ok_or("no pattern")?;
    }
    Ok(patterns)
}

fn level(alloc: Global) -> Result<Level, Fail> {
    Ok(Level {
        place: FileRoot::Root(Value::compile(alloc, b"/w")?),
        types: 0,
        requests: 1000,
        idle: 75_000,
        index: None,
        tries: None,
        internal: false,
        pages: None,
        recursive: false,
        body_most: 1_048_576,
        send_wait: 60_000,
        head_wait: 60_000,
        absolute: true,
        with_port: true,
        with_server_name: false,
        any: false,
        rules: None,
        auth: None,
        auth_sets: None,
        ssi: false,
        silent: false,
        ssi_types: None,
        value_most: 256,
        capture_most: 4096,
        before: None,
        after: None,
        addition_types: None,
        program: Program::new(alloc),
    })
}

pub fn site(alloc: Global) -> Result<Site, Fail> {
    Ok(Site {
        folder: text(alloc, b"/")?,
        servers: Vec::new(alloc),
        levels: Vec::new(alloc),
        types: Vec::new(alloc),
        outside: level(alloc)?,
        plain: Types::new(alloc, Vec::new(alloc), text(alloc, b"text/plain")?)?,
        indexes: Vec::new(alloc),
        pages: Vec::new(alloc),
        rules: Vec::new(alloc),
        auth_sets: Vec::new(alloc),
        media: Vec::new(alloc),
    })
}

pub fn main_request(alloc: Global) -> Result<Main, Fail> {
    let end = Addr {
        ip: IpAddr::V4(Ipv4Addr::new(127, 0, 0, 1)),
        port: 80,
    };
    Ok(Main {
        asked: Method::Get,
        method: Method::Get,
        version: Version::V11,
        target: text(alloc, b"/o/z?y=2")?,
        host: text(alloc, b"a")?,
        server_name: ByteText::new(alloc),
        local: end,
        peer: end,
        moment: 0,
        tree: 0,
        date: LocalDate::of(0),
        fields: HeadFields::new(alloc),
        folder: text(alloc, b"/")?,
    })
}

pub fn begun(alloc: Global) -> Result<Progress, Fail> {
    Ok(Progress {
        request: Request {
            method: Method::Get,
            path: text(alloc, b"/o/z")?,
            args: text(alloc, b"y=2")?,
            groups: Groups::new(alloc),
            place: None,
            role: Role::Main,
        },
        level: 0,
        inside: false,
        seeks: false,
    })
}

fn coded(alloc: Global, code: u16, text: Option<ByteText>) -> Result<ByteText, Fail> {
    let mut out = ByteText::from_vec(format!(in alloc; "{code} ")?.into_bytes());
    match text {
        Some(text) => out.extend(text.as_slice())?,
        None => out.push(b'-')?,
    }
    Ok(out)
}

fn ended(alloc: Global, progress: &Progress) -> Result<ByteText, Fail> {
    let mut out = text(alloc, progress.request.path.as_slice())?;
    out.push(b'?')?;
    out.extend(progress.request.args.as_slice())?;
    if progress.seeks {
        out.extend(b" seeks")?;
    }
    Ok(out)
}

fn shown(alloc: Global, ending: Ending, progress: &Progress) -> Result<ByteText, Fail> {
    match ending {
        Ending::End => ended(alloc, progress),
        Ending::Status { code, text } => coded(alloc, code, text),
        Ending::Redirect { code, to } => coded(alloc, code, to),
        Ending::Close => text(alloc, b"closed"),
        Ending::Failed { leading: true } => text(alloc, b"failed first"),
        Ending::Failed { leading: false } => text(alloc, b"failed"),
    }
}

fn node_at(path: &[u8]) -> Node {
    if path == THERE {
        return Node::File { len: 1, date: 0 };
    }
    Node::Missing
}

fn program(alloc: Global, steps: Vec<RewriteStep>) -> Result<Program, Fail> {
    let mut program = Program::new(alloc);
    for step in steps {
        program.push(step)?;
    }
    Ok(program)
}

/// A program, and what it runs on.
#[derive(Drop)]
struct Sample {
    alloc: Global,
    site: Site,
    main: Main,
    patterns: PatternSet,
    program: Program,
    progress: Progress,
    vars: VarTable,
}

impl Sample {
    fn new(alloc: Global, program: Program) -> Result<Sample, Fail> {
        Ok(Sample {
            alloc,
            site: site(alloc)?,
            main: main_request(alloc)?,
            patterns: patterns(alloc)?,
            program,
            progress: begun(alloc)?,
            vars: VarTable::new(alloc),
        })
    }

    fn run(&mut self) -> Result<RunStep, Fail> {
        let setting = Setting {
            alloc: self.alloc,
            site: &self.site,
            main: &self.main,
        };
        Ok(run(
            &setting,
            &self.program,
            &mut self.patterns,
            &mut self.progress,
            &mut self.vars,
        )?)
    }

    fn resume(&mut self, at: usize, path: &[u8]) -> Result<RunStep, Fail> {
        let setting = Setting {
            alloc: self.alloc,
            site: &self.site,
            main: &self.main,
        };
        Ok(resume(
            &setting,
            &self.program,
            &mut self.patterns,
            &mut self.progress,
            &mut self.vars,
            at,
            node_at(path),
        )?)
    }
}

/// What a program comes to for the request `/o/z?y=2`, with at most two file tests.
pub fn outcome(alloc: Global, steps: Vec<RewriteStep>) -> Result<ByteText, Fail> {
    let mut sample = Sample::new(alloc, program(alloc, steps)?)?;
    let mut step = sample.run()?;
    for _ in 0..3 {
        match step {
            RunStep::Ended(ending) => return shown(alloc, ending, &sample.progress),
            RunStep::Test { path, at } => step = sample.resume(at, path.as_slice())?,
        }
    }
    text(alloc, b"still asks")
}
