//! The site that a configuration describes: its servers, the values that hold in their levels, and what the numbers of
//! its levels mean.
#![tactic(auto)]

mod listen;
mod program;
mod site;
mod values;

pub use listen::Listens;
pub use ngx_variables;
pub use program::{FileTest, Flag, Program, RewriteStep, Test};
pub use site::{
    Level, Location, LocationKind, NamedLocation, Return, Rules, Server, ServerName, Site,
};
pub use values::{
    AuthSet, AuthSets, IndexName, IndexNames, LastTry, MediaTypes, PageRule, PageRules, PageTarget,
    Shown, Tries,
};
