// Lines by the names of variables.
ghost use Rattle.std.specs.Prelude.{◌≡◌, ◌++◌, ◌∷◌, [], ℕ, List, bytes_eq, OnOk};
ghost use Rattle.race_check.specs.Names.{has as has_name};
ghost use Rattle.race_places.specs.Index.{at};
ghost use Rattle.race_places.specs.Places.{keep_if, line_list};

use byte_text::OutOfMemory;
use race_check::NameSet;
use source_lines::Line;
use std::alloc::Global;
use std::collections::BTreeMap;

/// The lines of each variable, in the order in which they were added. Contracts see it by `at`.
#[derive(Drop)]
pub struct LineIndex {
    pub(crate) lines: BTreeMap<Vec<u8>, Vec<Line>>,
    alloc: Global,
}

impl LineIndex {
    /// No variable has a line, which takes no memory.
    #[tactic(auto, unfolding(crate::specs::Index::at))]
    pub fn new(alloc: Global) -> Self
        ensures { (name : List ℕ) → at result name ≡ [] }
    {
        LineIndex {
            lines: BTreeMap::new(alloc),
            alloc,
        }
    }

    /// The lines of a variable.
    #[tactic(auto, unfolding(crate::specs::Index::at))]
    pub fn of(&self, name: &[u8]) -> &[Line]
        ensures { result.now ≡ at self.now name.now }
    {
        match self.lines.get(name) {
            Some(lines) => lines.as_slice(),
            None => &[],
        }
    }

    /// Adds a line of a variable.
    pub fn add(&mut self, name: &[u8], line: Line) -> Result<(), OutOfMemory>
        ensures { OnOk result ((other : List ℕ) → at self.new other
            ≡ at self.old other ++ keep_if (bytes_eq name.now other) (line ∷ [])) }
    {
        if let Some(lines) = self.lines.get_mut(name) {
            lines.push(line)?;
            return Ok(());
        }
        let key = name.to_vec(self.alloc)?;
        let mut lines = Vec::new(self.alloc);
        lines.push(line)?;
        self.lines.insert(key, lines)?;
        Ok(())
    }

    /// Adds a line of each of these variables.
    pub fn add_all(&mut self, names: &NameSet, line: Line) -> Result<(), OutOfMemory>
        ensures { OnOk result ((name : List ℕ) → at self.new name
            ≡ at self.old name ++ keep_if (has_name names.now name) (line ∷ [])) }
    {
        for name in &names.names {
            self.add(name.as_slice(), line)?;
        }
        Ok(())
    }

    /// The same with a line, if there is one.
    pub fn add_some(&mut self, names: &NameSet, line: Option<Line>) -> Result<(), OutOfMemory>
        ensures { OnOk result ((name : List ℕ) → at self.new name
            ≡ at self.old name ++ keep_if (has_name names.now name) (line_list line)) }
    {
        match line {
            Some(line) => {
                self.add_all(names, line)?;
                Ok(())
            }
            None => Ok(()),
        }
    }
}
