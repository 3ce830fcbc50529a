// Directives with each include replaced by its files.
ghost use Rattle.std.specs.Prelude.{◌≡◌, ◌≤◌, ◌<◌, ◌+◌, ◌*◌, ◌^◌, ℕ, List, length, IfOk, OnOk, option_copied};
ghost use Rattle.std.specs.List.{AllByRecursion};
ghost use Rattle.conf_include.specs.Expansion.{spot, directives_in, include_word, next_number};
ghost use Rattle.conf_include.specs.Told.{Later, IsTold};
ghost use Rattle.conf_include.specs.Steps.{IsCaused, OnFailed, FailsAbout, NeverFails, WhereTold, IsRead, IsNamed, IsLonger, FailsWhere, Answers, one_less, AreShallow};

use crate::listing::paths_named;
use crate::open::text_of;
use crate::paths::path_of;
use crate::stop::{Spot, Stop, fault_about};
use byte_text::{ByteText, ByteTexts};
use conf_text::{ConfError, Directive, Directives, FaultKind, parse};
use ngx_outside::Files;
use std::alloc::Global;

/// The most files that a configuration has.
const MOST_FILES: usize = 256;

/// What stays while a configuration is read: the allocator, the path of the main file, and the number of the tree.
#[derive(Clone, Copy)]
pub struct Setting<'a> {
    pub alloc: Global,
    pub main: &'a [u8],
    pub tree: u64,
}

/// What was read so far: the path of each file, by its number, how many bytes they have, and the directives.
#[derive(Drop)]
pub struct Reading {
    pub paths: ByteTexts,
    pub size: u64,
    pub lines: Directives,
}

/// The word of an include: a directive of this name with one parameter and no block.
#[tactic(auto, unfolding(crate::specs::Expansion::include_word))]
fn include_word(line: &Directive) -> Option<&ByteText>
    ensures { option_copied result ≡ include_word line.now }
{
    if line.name.as_slice() != b"include".as_slice() || line.block {
        return None;
    }
    match line.args.as_slice() {
        [word] => Some(word),
        _ => None,
    }
}

/// The directives of a file of this number.
pub fn directives_in(alloc: Global, number: u32, text: &[u8]) -> Result<Directives, Stop>
    ensures lines { (paths : List (List ℕ))
        → Answers (λ lines. lines) result (directives_in number text.now paths) paths }
    ensures shallow { IfOk result AreShallow }
    ensures cause { (before now : ℕ) → IsCaused result before now }
    ensures never { NeverFails result }
{
    match parse(alloc, number, text) {
        Ok(lines) => Ok(lines),
        Err(ConfError::Fault(fault)) => Err(Stop::Fault(fault)),
        Err(ConfError::OutOfMemory) => Err(Stop::OutOfMemory),
    }
}

/// How many includes may enclose each other after one more.
fn one_less(alloc: Global, left: u32, at: Spot, path: &[u8]) -> Result<u32, Stop>
    ensures left { (paths : List (List ℕ))
        → Answers (λ n. n) result (one_less left (spot at.file at.line) path.now paths) paths }
    ensures less { IfOk result (λ n. n + 1 ≡ left) }
    ensures cause { (before now : ℕ) → IsCaused result before now }
    ensures never { NeverFails result }
{
    if left == 0 {
        return Err(Stop::Fault(fault_about(alloc, FaultKind::TooDeep, at, path)?));
    }
    Ok(left - 1)
}

/// The number of the file that is read next.
#[tactic(auto, unfolding(crate::specs::Expansion::next_number, crate::specs::Expansion::most_files))]
fn next_number(alloc: Global, at: Spot, path: &[u8], paths: &ByteTexts) -> Result<u32, Stop>
    ensures number { Answers (λ n. n) result
        (next_number (spot at.file at.line) path.now paths.now) paths.now }
    ensures cause { (before now : ℕ) → IsCaused result before now }
    ensures never { NeverFails result }
{
    if paths.len() >= MOST_FILES {
        return Err(Stop::Fault(fault_about(alloc, FaultKind::TooMany, at, path)?));
    }
    Ok(paths.len() as u32)
}

impl Reading {
    ghost use Rattle.file_tree.specs.Tree.{Tree};
    ghost use Rattle.conf_include.specs.Expansion.{open_file, put_all, put_line, put_lines, put_file, named_by};
    ghost use Rattle.conf_include.specs.Steps.{Puts, tally_of};

    /// Reads a file at the place of an include, and gives its directives.
    fn open<F: Files>(
        &mut self,
        setting: &Setting<'_>,
        files: &mut F,
        at: Spot,
        path: ByteText,
    ) -> Result<Directives, Stop>
        requires known { setting.now.tree ≤ (F.seen files.old).newest }
        ensures later { Later (F.seen files.old) (F.seen files.new) }
        ensures cause { IsCaused result (F.seen files.old).faults (F.seen files.new).faults }
        ensures opens { (tree : Tree) → IsTold setting.now.tree tree (F.seen files.new)
            → Answers (λ lines. (lines, tally_of self.new)) result
            (open_file tree (spot at.file at.line) path (tally_of self.old)) self.new.paths }
        ensures place { FailsAbout (spot at.file at.line) path result }
        ensures paths { OnFailed result (λ fault. self.new.paths ≡ self.old.paths) }
        ensures grows { IfOk result (λ lines. IsLonger self.old.paths self.new.paths) }
        ensures lines { self.new.lines ≡ self.old.lines }
        ensures shallow { IfOk result AreShallow }
    {
        let number = next_number(setting.alloc, at, path.as_slice(), &self.paths)?;
        let text = text_of(
            setting.alloc,
            files,
            setting.tree,
            at,
            path.as_slice(),
            self.size,
        )?;
        self.paths.push(path)?;
        self.size += text.len() as u64;
        directives_in(setting.alloc, number, text.as_slice())
    }

    /// Puts a file at the place of an include, which `depth` blocks enclose.
    #[cycle(include)]
    fn put_file<F: Files>(
        &mut self,
        setting: &Setting<'_>,
        files: &mut F,
        left: u32,
        depth: u32,
        at: Spot,
        path: ByteText,
    ) -> Result<(), Stop>
        requires known { setting.now.tree ≤ (F.seen files.old).newest }
        requires room { depth + 33 * left < 2 ^ 32 }
        requires named { WhereTold setting.now.tree (F.seen files.old)
            (λ tree names. IsNamed tree names setting.now.main.now self.old.paths
            (spot at.file at.line) path) }
        ensures later { Later (F.seen files.old) (F.seen files.new) }
        ensures cause { IsCaused result (F.seen files.old).faults (F.seen files.new).faults }
        ensures exact { Puts (λ tree names. put_file tree names setting.now.main.now left
            (spot at.file at.line) path (tally_of self.old))
            setting.now.tree (F.seen files.new) depth self.old self.new result }
        ensures place { FailsWhere setting.now.tree setting.now.main.now
            (F.seen files.new) self.new result }
        ensures grows { IfOk result (λ _. IsLonger self.old.paths self.new.paths) }
    {
        let left = one_less(setting.alloc, left, at, path.as_slice())?;
        let lines = self.open(setting, files, at, path)?;
        self.put_lines(setting, files, left, depth, lines)?;
        Ok(())
    }

    /// Puts files at the place of an include, one after another.
    #[cycle(include)]
    fn put_files<F: Files>(
        &mut self,
        setting: &Setting<'_>,
        files: &mut F,
        left: u32,
        depth: u32,
        at: Spot,
        paths: ByteTexts,
    ) -> Result<(), Stop>
        requires known { setting.now.tree ≤ (F.seen files.old).newest }
        requires room { depth + 33 * left < 2 ^ 32 }
        requires named { WhereTold setting.now.tree (F.seen files.old)
            (λ tree names. AllByRecursion
            (IsNamed tree names setting.now.main.now self.old.paths (spot at.file at.line))
            paths) }
        ensures later { Later (F.seen files.old) (F.seen files.new) }
        ensures cause { IsCaused result (F.seen files.old).faults (F.seen files.new).faults }
        ensures exact { Puts (λ tree names. put_all
            (put_file tree names setting.now.main.now left (spot at.file at.line)) paths
            (tally_of self.old))
            setting.now.tree (F.seen files.new) depth self.old self.new result }
        ensures place { FailsWhere setting.now.tree setting.now.main.now
            (F.seen files.new) self.new result }
        ensures grows { IfOk result (λ _. IsLonger self.old.paths self.new.paths) }
    {
        for path in paths.into_vec() {
            self.put_file(setting, files, left, depth, at, path)?;
        }
        Ok(())
    }

    /// Puts a directive, which `depth` blocks enclose, or the files of an include in its place.
    #[cycle(include)]
    fn put_line<F: Files>(
        &mut self,
        setting: &Setting<'_>,
        files: &mut F,
        left: u32,
        depth: u32,
        line: Directive,
    ) -> Result<(), Stop>
        requires known { setting.now.tree ≤ (F.seen files.old).newest }
        requires room { depth + 32 + 33 * left < 2 ^ 32 }
        requires shallow { line.depth ≤ 32 }
        requires read { WhereTold setting.now.tree (F.seen files.old)
            (λ tree names. IsRead tree names setting.now.main.now self.old.paths line) }
        ensures later { Later (F.seen files.old) (F.seen files.new) }
        ensures cause { IsCaused result (F.seen files.old).faults (F.seen files.new).faults }
        ensures exact { Puts (λ tree names. put_line (put_file tree names setting.now.main.now left)
            (named_by names setting.now.main.now) line (tally_of self.old))
            setting.now.tree (F.seen files.new) depth self.old self.new result }
        ensures place { FailsWhere setting.now.tree setting.now.main.now
            (F.seen files.new) self.new result }
        ensures grows { IfOk result (λ _. IsLonger self.old.paths self.new.paths) }
    {
        let depth = depth + line.depth;
        match include_word(&line) {
            None => {
                self.lines.push(Directive { depth, ..line })?;
                Ok(())
            }
            Some(word) => {
                let at = Spot {
                    file: line.file,
                    line: line.line,
                };
                let path = path_of(setting.alloc, setting.main, word.as_slice())?;
                let paths = paths_named(setting.alloc, files, path, at)?;
                self.put_files(setting, files, left, depth, at, paths)?;
                Ok(())
            }
        }
    }

    /// Puts directives, which `depth` blocks enclose, each include replaced by its files. At most `left` includes
    /// enclose each other.
    #[cycle(include)]
    pub fn put_lines<F: Files>(
        &mut self,
        setting: &Setting<'_>,
        files: &mut F,
        left: u32,
        depth: u32,
        lines: Directives,
    ) -> Result<(), Stop>
        requires known { setting.now.tree ≤ (F.seen files.old).newest }
        requires room { depth + 32 + 33 * left < 2 ^ 32 }
        requires shallow { AreShallow lines }
        requires read { WhereTold setting.now.tree (F.seen files.old)
            (λ tree names. AllByRecursion
            (IsRead tree names setting.now.main.now self.old.paths) lines) }
        ensures later { Later (F.seen files.old) (F.seen files.new) }
        ensures cause { IsCaused result (F.seen files.old).faults (F.seen files.new).faults }
        ensures exact { Puts (λ tree names. put_lines tree names setting.now.main.now left lines
            (tally_of self.old))
            setting.now.tree (F.seen files.new) depth self.old self.new result }
        ensures place { FailsWhere setting.now.tree setting.now.main.now
            (F.seen files.new) self.new result }
        ensures grows { IfOk result (λ _. IsLonger self.old.paths self.new.paths) }
    {
        for line in lines.into_vec() {
            self.put_line(setting, files, left, depth, line)?;
        }
        Ok(())
    }
}
