// What is kept of each list of locations.
use location_match::Prefixes;

/// A location by a regular expression: the number of its pattern, and its own.
#[derive(Clone, Copy, Debug)]
pub struct PatternLocation {
    pub pattern: u32,
    pub number: u32,
}

/// What a list of locations is searched by: the texts that match exactly, the prefixes, and the regular expressions in the
/// order of the text.
#[derive(Drop)]
pub struct LocationList {
    pub exact: Prefixes,
    pub prefixes: Prefixes,
    pub patterns: Vec<PatternLocation>,
}

/// A location: the number of its level, whether it is `^~`, and the list in it.
#[derive(Drop)]
pub struct Node {
    pub level: u32,
    pub firm: bool,
    pub list: LocationList,
}

/// The nodes of all locations, and the number of the one that has those that are in no other.
#[derive(Drop)]
pub struct Tree {
    pub nodes: Vec<Node>,
    pub own: u32,
}
