// Where directives are.

/// A line of a configuration file: the number of the file, in the order in which files are read, and the line there, from 1.
/// Lines are in the order of the text.
#[derive(Clone, Copy, Debug, PartialEq, Eq, PartialOrd, Ord)]
pub struct Line {
    pub file: u32,
    pub line: u64,
}

/// Where the values of a level are stated, in the level or around it: its place, each of its index names, its
/// `try_files`, each rule of `error_page`, each `auth_request_set`; and where the directives of its program are, one by
/// one. There is none of what isn't stated.
#[derive(Drop)]
pub struct LevelLines {
    pub place: Option<Line>,
    pub index: Vec<Line>,
    pub tries: Option<Line>,
    pub pages: Vec<Line>,
    pub auth_sets: Vec<Line>,
    pub program: Vec<Line>,
}
