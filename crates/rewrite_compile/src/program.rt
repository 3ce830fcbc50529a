// The program of a level.
ghost use Rattle.std.specs.Prelude.{◌≡◌, ◌+◌, ◌++◌, ◌∷◌, [], None, length, map, flat_map, IfOk, OnOk, IfErr, OnErr};
ghost use Rattle.ngx_pattern.specs.Makers.{Rose};
ghost use Rattle.conf_values.specs.TextSet.{holds};
ghost use Rattle.conf_block.specs.Forest.{forest_of};
ghost use Rattle.rewrite_compile.specs.Programs.{fault_at, patterns_by, patterns_at, kind_by, first_fault, level_after, step_by, steps_from, line_at, parts_of};
ghost use Rattle.rewrite_compile.specs.Failing.{Says, error_by};
ghost use Rattle.rewrite_compile.specs.declared.program.CompileError.TheVariants.{OutOfMemory as NoMemory};

use crate::part::{Part, Spot, has_block, parts_in};
use crate::pattern::step_in;
use crate::raw::Reading;
use byte_text::OutOfMemory;
use conf_text::{ConfError, ConfFault, Directive, FaultKind};
use conf_values::TextSet;
use ngx_pattern::{PatternFault, PatternMaker, PatternSet};
use site_model::{Program, RewriteStep};
use source_lines::Line;
use std::alloc::Global;

/// The program of a level, and the line of each of its directives.
#[derive(Drop)]
pub struct Compiled {
    pub program: Program,
    pub lines: Vec<Line>,
}

/// Why a level makes no program.
#[derive(Drop)]
pub enum CompileError {
    /// The first fault of its directives in the order of the text.
    Fault(ConfFault),
    /// The maker refused a pattern of a directive, before which none has a fault.
    TooBig(ConfFault),
    OutOfMemory,
}

impl From<OutOfMemory> for CompileError {
    ghost from_gives = { λ _ e. e ≡ NoMemory };

    fn from(_: OutOfMemory) -> Self {
        CompileError::OutOfMemory
    }
}

impl From<CompileError> for ConfError {
    fn from(error: CompileError) -> Self {
        match error {
            CompileError::Fault(fault) | CompileError::TooBig(fault) => ConfError::Fault(fault),
            CompileError::OutOfMemory => ConfError::OutOfMemory,
        }
    }
}

fn fault_at(spot: Spot, kind: FaultKind) -> ConfFault
    ensures { result ≡ fault_at spot kind }
{
    ConfFault {
        kind,
        file: spot.file,
        line: spot.line,
        word: Some(spot.name),
    }
}

fn error_by(spot: Spot, fault: PatternFault) -> CompileError
    ensures { result ≡ error_by spot fault }
{
    match fault {
        PatternFault::Bad => CompileError::Fault(fault_at(spot, FaultKind::Pattern)),
        PatternFault::TooBig => CompileError::TooBig(fault_at(spot, FaultKind::PatternTooBig)),
        PatternFault::OutOfMemory => CompileError::OutOfMemory,
    }
}

/// The number of the level that the next block has: one more after an `if`.
fn level_after(level: Option<u32>, reading: &Reading) -> Result<Option<u32>, OutOfMemory>
    ensures { IfOk result (λ next. next ≡ level_after level reading.now) }
{
    if !has_block(reading) {
        return Ok(level);
    }
    match level {
        Some(number) => match number.checked_add(1) {
            Some(next) => Ok(Some(next)),
            None => Err(OutOfMemory),
        },
        None => Ok(None),
    }
}

/// The directive of a program that a part is; its pattern is added to the set.
fn step_of<M: PatternMaker>(
    maker: &mut M,
    patterns: &mut PatternSet,
    part: Part,
    level: Option<u32>,
) -> Result<RewriteStep, CompileError>
    ensures ok { IfOk result (λ step. step_by (length patterns.old) level part.block part.reading
        ≡ step ∷ []) }
    ensures grown { OnOk result (patterns.new ≡ patterns.old ++ patterns_by part.reading) }
    ensures fine { OnOk result (kind_by part.reading ≡ None) }
    ensures spared { OnOk result (M.refusals maker.new ≡ M.refusals maker.old) }
    ensures fault { IfErr result
        (Says (Rose (M.refusals maker.old) (M.refusals maker.new)) (part ∷ [])) }
{
    let Part {
        spot,
        reading,
        block,
    } = part;
    match reading {
        Reading::Wrong(kind) => Err(CompileError::Fault(fault_at(spot, kind))),
        Reading::Step(raw) => match step_in(maker, patterns, raw, block, level) {
            Ok(step) => Ok(step),
            Err(fault) => Err(error_by(spot, fault)),
        },
    }
}

impl Compiled {
    fn new(alloc: Global) -> Self
        ensures program { result.program ≡ [] }
        ensures lines { result.lines.items ≡ [] }
    {
        Compiled {
            program: Program::new(alloc),
            lines: Vec::new(alloc),
        }
    }

    fn add(&mut self, step: RewriteStep, line: Line) -> Result<(), OutOfMemory>
        ensures program { OnOk result (self.new.program ≡ self.old.program ++ step ∷ []) }
        ensures lines { OnOk result (self.new.lines.items ≡ self.old.lines.items ++ line ∷ []) }
    {
        self.program.push(step)?;
        self.lines.push(line)?;
        Ok(())
    }
}

fn line_of(spot: &Spot) -> Line
    ensures { result ≡ record { file = spot.now.file; line = spot.now.line } }
{
    Line {
        file: spot.file,
        line: spot.line,
    }
}

/// What the parts of a level make.
fn make<M: PatternMaker>(
    alloc: Global,
    maker: &mut M,
    patterns: &mut PatternSet,
    parts: Vec<Part>,
    first_block: Option<u32>,
) -> Result<Compiled, CompileError>
    ensures program { IfOk result (λ made.
        made.program ≡ steps_from (length patterns.old) first_block parts.items) }
    ensures lines { IfOk result (λ made. made.lines.items ≡ map line_at parts.items) }
    ensures patterns { OnOk result
        (patterns.new ≡ patterns.old ++ flat_map patterns_at parts.items) }
    ensures fine { OnOk result (first_fault parts.items ≡ None) }
    ensures fault { IfErr result
        (Says (Rose (M.refusals maker.old) (M.refusals maker.new)) parts.items) }
{
    let mut made = Compiled::new(alloc);
    let mut level = first_block;
    for part in parts {
        let line = line_of(&part.spot);
        let next = level_after(level, &part.reading)?;
        let step = step_of(maker, patterns, part, level)?;
        made.add(step, line)?;
        level = next;
    }
    Ok(made)
}

/// The program of a level, with the line of each of its directives: `set`, `if`, `rewrite`, `return` and `break` in the order of
/// the text, those in the block of an `if` right after it, with their number. The names of the variables that the
/// configuration sets are known. Patterns are added to the set. In a location the blocks of `if`s are levels of their
/// own, numbered from `first_block` on; elsewhere there is none.
///
/// # Errors
/// `Fault` for the first fault in the order of the text: a value that is none, a built-in variable that is set, or a pattern that is
/// none; of one directive the value comes first. `TooBig` where the maker refused a pattern. Patterns may then have been
/// added.
pub fn compile<M: PatternMaker>(
    alloc: Global,
    known: &TextSet,
    maker: &mut M,
    patterns: &mut PatternSet,
    level: &[Directive],
    first_block: Option<u32>,
) -> Result<Compiled, CompileError>
    ensures program { let parts = parts_of (holds known.now.keys) (forest_of level.now) in
        IfOk result (λ made. made.program ≡ steps_from (length patterns.old) first_block parts) }
    ensures lines { let parts = parts_of (holds known.now.keys) (forest_of level.now) in
        IfOk result (λ made. made.lines.items ≡ map line_at parts) }
    ensures patterns { let parts = parts_of (holds known.now.keys) (forest_of level.now) in
        OnOk result (patterns.new ≡ patterns.old ++ flat_map patterns_at parts) }
    ensures fine { let parts = parts_of (holds known.now.keys) (forest_of level.now) in
        OnOk result (first_fault parts ≡ None) }
    ensures fault { let parts = parts_of (holds known.now.keys) (forest_of level.now) in
        IfErr result (Says (Rose (M.refusals maker.old) (M.refusals maker.new)) parts) }
{
    let parts = parts_in(alloc, known, level)?;
    let made = make(alloc, maker, patterns, parts, first_block)?;
    Ok(made)
}
