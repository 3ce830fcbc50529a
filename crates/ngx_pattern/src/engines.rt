// What searches for a program, and the memory that it keeps between searches.
ghost use Rattle.std.specs.Prelude.{◌≡◌, ◌-◌, ◌≤◌, length, true, false, option_map, IfOk, IfSome};
ghost use Rattle.regex_extract.specs.Bounds.{IsAnchored};
ghost use Rattle.regex_vm.specs.Found.{first_match, span, group_cells};
ghost use Rattle.regex_meta.specs.Located.{EndsAt};
ghost use Rattle.regex_meta.specs.Programs.{leftmost, pattern_of as re_of};
ghost use Rattle.ngx_pattern.specs.Engines.{AreFor};

use regex_dfa::{End, Forward, Reverse, Start};
use regex_meta::Program;
use regex_tagged::{Near, Tagged};
use regex_vm::PikeVm;
use std::alloc::{AllocError, Global};

/// How many bytes the rows of each table may take. What is searched comes from clients, and one that is bent on it can fill
/// the tables of each pattern.
const TABLE_BYTES: usize = 0x1_0000;
/// How many cells a row of the table that finds groups has besides one for each class of bytes.
const CELLS_BESIDE_CLASSES: usize = 15;
/// How many bytes a cell of that table takes.
const CELL_BYTES: usize = 8;
/// What that table counts at least as its work for a step that it learns. A step makes a row at most, or two at an assertion
/// on characters.
const STEP_WORK: u64 = 900;

/// The engines that search for one program, and the tables that they fill as they do. Where a table can't grow, for want of
/// memory, the PikeVM searches, which has all that it needs from the start.
pub struct Engines {
    alloc: Global,
    tagged: Tagged,
    /// How much work on its table the engine that finds groups may do before it is made anew.
    most_work: u64,
    forward: Forward,
    reverse: Reverse,
    pikevm: PikeVm,
}

// How much work makes rows of about `TABLE_BYTES`, where each step that is learned makes one.
fn most_work(program: &Program) -> u64 {
    let row = (program.dfa.classes + CELLS_BESIDE_CLASSES) * CELL_BYTES;
    (TABLE_BYTES / row) as u64 * STEP_WORK
}

impl Engines {
    pub(crate) fn new(alloc: Global, program: &Program) -> Result<Engines, AllocError>
        ensures { IfOk result (λ e. AreFor e program.now) }
    {
        let tagged = Tagged::new(alloc, &program.dfa)?;
        let forward = Forward::with_budget(alloc, &program.dfa, false, TABLE_BYTES)?;
        let reverse = Reverse::with_budget(alloc, &program.dfa, TABLE_BYTES)?;
        let pikevm = PikeVm::new(alloc, &program.dfa.nfa)?;
        Ok(Engines {
            alloc,
            tagged,
            most_work: most_work(program),
            forward,
            reverse,
            pikevm,
        })
    }

    /// The span of the leftmost match. `cells` gets its groups from 1 on.
    pub(crate) fn find(
        &mut self,
        program: &Program,
        at_start: bool,
        bytes: &[u8],
        cells: &mut [usize],
    ) -> Option<(usize, usize)>
        requires own { AreFor self.old program.now }
        requires at_start { ∥ (at_start ≡ true → IsAnchored true (re_of program.now)) ∥₁ }
        requires width { length cells.old ≤ program.now.dfa.nfa.slot_count - 2 }
        ensures found { result ≡ option_map span (leftmost program.now bytes.now 0) }
        ensures cells { IfSome (leftmost program.now bytes.now 0)
            (λ m. cells.new ≡ group_cells m (length cells.old)) }
        ensures own { AreFor self.new program.now }
    {
        if bytes.len() < program.min_len {
            return None;
        }
        self.renew(program);
        if at_start {
            return self.find_at_start(program, bytes, cells);
        }
        if program.at_end {
            return self.find_at_end(program, bytes, cells);
        }
        self.find_anywhere(program, bytes, cells)
    }

    // Makes the engine that finds groups anew once its table may have grown large.
    fn renew(&mut self, program: &Program)
        requires { AreFor self.old program.now }
        ensures { AreFor self.new program.now }
    {
        if self.tagged.work().built >= self.most_work {
            self.make_anew(program);
        }
    }

    // The same, at once. Where there's no memory for a new one, the old goes on. (Apart, since its locals are large.)
    #[cold]
    #[inline(never)]
    fn make_anew(&mut self, program: &Program)
        requires { AreFor self.old program.now }
        ensures { AreFor self.new program.now }
    {
        if let Ok(tagged) = Tagged::new(self.alloc, &program.dfa) {
            self.tagged = tagged;
        }
    }

    // Where a match starts where the bytes start.
    fn find_at_start(
        &mut self,
        program: &Program,
        bytes: &[u8],
        cells: &mut [usize],
    ) -> Option<(usize, usize)>
        requires own { AreFor self.old program.now }
        requires anchored { IsAnchored true (re_of program.now) }
        requires width { length cells.old ≤ program.now.dfa.nfa.slot_count - 2 }
        ensures found { result ≡ option_map span (leftmost program.now bytes.now 0) }
        ensures cells { IfSome (leftmost program.now bytes.now 0)
            (λ m. cells.new ≡ group_cells m (length cells.old)) }
        ensures own { AreFor self.new program.now }
    {
        if program.is_too_long(bytes) {
            return None;
        }
        self.find_from(program, bytes, 0, bytes.len(), cells)
    }

    // Where a match ends where the bytes end.
    fn find_at_end(
        &mut self,
        program: &Program,
        bytes: &[u8],
        cells: &mut [usize],
    ) -> Option<(usize, usize)>
        requires own { AreFor self.old program.now }
        requires anchored { IsAnchored false (re_of program.now) }
        requires width { length cells.old ≤ program.now.dfa.nfa.slot_count - 2 }
        ensures found { result ≡ option_map span (leftmost program.now bytes.now 0) }
        ensures cells { IfSome (leftmost program.now bytes.now 0)
            (λ m. cells.new ≡ group_cells m (length cells.old)) }
        ensures own { AreFor self.new program.now }
    {
        match self.reverse.find_start(&program.dfa, bytes, 0, bytes.len()) {
            Start::At(from) if cells.is_empty() => Some((from, bytes.len())),
            Start::At(from) => self.find_from(program, bytes, from, bytes.len(), cells),
            Start::NoMatch => None,
            Start::GaveUp => self.find_anywhere(program, bytes, cells),
        }
    }

    // Wherever a match starts and ends.
    fn find_anywhere(
        &mut self,
        program: &Program,
        bytes: &[u8],
        cells: &mut [usize],
    ) -> Option<(usize, usize)>
        requires own { AreFor self.old program.now }
        requires width { length cells.old ≤ program.now.dfa.nfa.slot_count - 2 }
        ensures found { result ≡ option_map span (leftmost program.now bytes.now 0) }
        ensures cells { IfSome (leftmost program.now bytes.now 0)
            (λ m. cells.new ≡ group_cells m (length cells.old)) }
        ensures own { AreFor self.new program.now }
    {
        let at = program.first_place(bytes, 0)?;
        match self
            .forward
            .find_end(&program.dfa, bytes, at, bytes.len(), false, false)
        {
            End::At(end) => self.find_back(program, bytes, at, end, cells),
            End::NoMatch => None,
            _ => self.find_near(program, bytes, at, cells),
        }
    }

    // The leftmost match from `floor` on, which ends at `end`.
    fn find_back(
        &mut self,
        program: &Program,
        bytes: &[u8],
        floor: usize,
        end: usize,
        cells: &mut [usize],
    ) -> Option<(usize, usize)>
        requires own { AreFor self.old program.now }
        requires ends { EndsAt (re_of program.now) bytes.now floor floor end }
        requires width { length cells.old ≤ program.now.dfa.nfa.slot_count - 2 }
        ensures found { result ≡ option_map span (leftmost program.now bytes.now floor) }
        ensures cells { IfSome (leftmost program.now bytes.now floor)
            (λ m. cells.new ≡ group_cells m (length cells.old)) }
        ensures own { AreFor self.new program.now }
    {
        match self.reverse.find_start(&program.dfa, bytes, floor, end) {
            Start::At(from) if cells.is_empty() => Some((from, end)),
            Start::At(from) => self.find_from(program, bytes, from, end, cells),
            _ => self.step_by_step(program, bytes, floor, end, end, cells),
        }
    }

    // The leftmost match from `at` on, in one pass that finds the groups too.
    fn find_near(
        &mut self,
        program: &Program,
        bytes: &[u8],
        at: usize,
        cells: &mut [usize],
    ) -> Option<(usize, usize)>
        requires own { AreFor self.old program.now }
        requires within { at ≤ length bytes.now }
        requires width { length cells.old ≤ program.now.dfa.nfa.slot_count - 2 }
        ensures found { result ≡ option_map span (leftmost program.now bytes.now at) }
        ensures cells { IfSome (leftmost program.now bytes.now at)
            (λ m. cells.new ≡ group_cells m (length cells.old)) }
        ensures own { AreFor self.new program.now }
    {
        match self
            .tagged
            .find_near(&program.dfa, bytes, at, bytes.len(), cells)
        {
            Ok(near) => match near {
                Near::Done(found) => found,
                Near::Idle(_) => {
                    self.step_by_step(program, bytes, at, bytes.len(), bytes.len(), cells)
                }
            },
            Err(_) => self.step_by_step(program, bytes, at, bytes.len(), bytes.len(), cells),
        }
    }

    // The match that starts at `start` and reads no byte at or after `stop`, with its groups.
    fn find_from(
        &mut self,
        program: &Program,
        bytes: &[u8],
        start: usize,
        stop: usize,
        cells: &mut [usize],
    ) -> Option<(usize, usize)>
        requires own { AreFor self.old program.now }
        requires ordered { (start ≤ stop) × (stop ≤ length bytes.now) }
        requires width { length cells.old ≤ program.now.dfa.nfa.slot_count - 2 }
        ensures found { let nfa = program.now.dfa.nfa in
            result ≡ option_map span (first_match nfa bytes.now stop start start) }
        ensures cells { IfSome (first_match program.now.dfa.nfa bytes.now stop start start)
            (λ m. cells.new ≡ group_cells m (length cells.old)) }
        ensures own { AreFor self.new program.now }
    {
        match self.tagged.find_at(&program.dfa, bytes, start, stop, cells) {
            Ok(found) => found,
            Err(_) => self.step_by_step(program, bytes, start, start, stop, cells),
        }
    }

    // Runs the states themselves, for a match that starts in `start..=last`, where no table says more.
    #[cold]
    fn step_by_step(
        &mut self,
        program: &Program,
        bytes: &[u8],
        start: usize,
        last: usize,
        stop: usize,
        cells: &mut [usize],
    ) -> Option<(usize, usize)>
        requires own { AreFor self.old program.now }
        requires ordered { (start ≤ stop) × (last ≤ stop) × (stop ≤ length bytes.now) }
        requires width { length cells.old ≤ program.now.dfa.nfa.slot_count - 2 }
        ensures found { let nfa = program.now.dfa.nfa in
            result ≡ option_map span (first_match nfa bytes.now stop start last) }
        ensures cells { IfSome (first_match program.now.dfa.nfa bytes.now stop start last)
            (λ m. cells.new ≡ group_cells m (length cells.old)) }
        ensures own { AreFor self.new program.now }
    {
        self.pikevm
            .find(&program.dfa.nfa, bytes, start, last, stop, cells)
    }
}

// Written out, so that a caller's proof sees one call and not the drop of each field.
impl Drop for Engines {
    fn drop(self) {
        let Engines {
            alloc: _alloc,
            tagged: _tagged,
            most_work: _,
            forward: _forward,
            reverse: _reverse,
            pikevm: _pikevm,
        } = self;
    }
}
