// What the names of a document are looked up in.
use crate::table::Table;
use byte_text::ByteTexts;
use ngx_variables::{Main, Request, VarTable};

/// What the names of a document are looked up in: the main request, the request that the document answers, the format
/// in which it shows dates, its own variables, and the variables that are set. Of the latter it sees those with the
/// names of a list (`ssi_visible`), or all where there is no list.
#[derive(Clone, Copy)]
pub struct Sight<'a> {
    pub main: &'a Main,
    pub request: &'a Request,
    pub format: &'a [u8],
    pub ssi: &'a Table,
    pub visible: &'a Option<ByteTexts>,
    pub vars: &'a VarTable,
}
