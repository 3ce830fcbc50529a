// The lines of a level.
ghost use Rattle.std.specs.Prelude.{◌≡◌, Some, IfOk};
ghost use Rattle.race_places.specs.Places.{list_at};

use byte_text::OutOfMemory;
use source_lines::Line;
use std::alloc::Global;
use std::marker::Model;

/// The lines of a list of values, one for each value. Contracts see the list.
#[derive(Drop)]
pub struct LineList {
    all: Vec<Line>,
}

impl Model for LineList {
    ghost use Rattle.std.specs.Prelude.{List};
    ghost use Rattle.source_lines.specs.declared.line.Line.{Line};

    ghost Value = { List Line };

    ghost view = { λ l. l.all.items };
}

impl LineList {
    pub fn new(lines: Vec<Line>) -> Self
        ensures { result ≡ lines.items }
    {
        LineList { all: lines }
    }

    pub fn as_slice(&self) -> &[Line]
        ensures { result.now ≡ self.now }
    {
        self.all.as_slice()
    }

    /// The same lines once more.
    pub fn copy(&self, alloc: Global) -> Result<LineList, OutOfMemory>
        ensures { IfOk result (λ copy. copy ≡ self.now) }
    {
        Ok(LineList {
            all: self.all.to_vec(alloc)?,
        })
    }
}

/// Where the values that hold in a level are stated, in the level or around it: its place and its `try_files`, and
/// where the directives of its program are, one by one. Of its index names, its rules of `error_page` and its
/// `auth_request_set`s it has the number of their lines among some lists. There is none of what isn't stated.
#[derive(Drop)]
pub struct StatedLines {
    pub place: Option<Line>,
    pub index: Option<usize>,
    pub tries: Option<Line>,
    pub pages: Option<usize>,
    pub auth_sets: Option<usize>,
    pub program: Vec<Line>,
}

/// The lines of a level; and where the values of each block of its `if`s are stated, where these blocks are levels, in the order
/// of the text.
#[derive(Drop)]
pub struct LinedLevel {
    pub own: StatedLines,
    pub blocks: Vec<StatedLines>,
}

/// The lines of a server's levels: its own, those of its locations, and those of its locations `@name`, each in the order of
/// the text; and the lists that the numbers in them mean, which levels share.
#[derive(Drop)]
pub struct ServerLines {
    pub lists: Vec<LineList>,
    pub levels: Vec<LinedLevel>,
}

/// The lines of a list by its number.
pub fn list_of(lists: &[LineList], number: usize) -> &[Line]
    ensures { result.now ≡ list_at lists.now (Some number) }
{
    match lists.get(number) {
        Some(list) => list.as_slice(),
        None => &[],
    }
}
