// The lists that levels name by number.
use file_type::Types;
use ngx_pattern::PatternSet;
use site_model::{AuthSets, IndexNames, MediaTypes, PageRules, Rules};

/// The lists so far, each under the number of its place: of media types, of index names, of rules for errors, of address rules,
/// of what a subrequest sets, and of media types of filters; and the patterns.
#[derive(Drop)]
pub struct Shelf {
    pub types: Vec<Types>,
    pub indexes: Vec<IndexNames>,
    pub pages: Vec<PageRules>,
    pub rules: Vec<Rules>,
    pub auth_sets: Vec<AuthSets>,
    pub media: Vec<MediaTypes>,
    pub patterns: PatternSet,
}
