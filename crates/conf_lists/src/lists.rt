// The lists that the directives of a level state.
use access_rules::Rule;
use site_model::{AuthSet, IndexName, MediaTypes, PageRule};

/// The lists that a level states: the names of `index`, the rules of `error_page`, those of `allow` and `deny`, the variables
/// that `auth_request_set` sets, and the types of `ssi_types` and `addition_types`, each in the order of the text. A list that
/// isn't stated is empty.
#[derive(Drop)]
pub struct LevelLists {
    pub index: Vec<IndexName>,
    pub pages: Vec<PageRule>,
    pub rules: Vec<Rule>,
    pub auth_sets: Vec<AuthSet>,
    pub ssi_types: MediaTypes,
    pub addition_types: MediaTypes,
}
