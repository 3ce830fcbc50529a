// What requests are served over.
use location_search::Locations;
use site_model::{IndexName, Server, Site};

/// What a request is served over: the site, the server that answers it and that server's locations; the names of `index`
/// that hold where none are stated; and the length in bytes that the request's head states of its own body, 0 where it
/// states none.
#[derive(Clone, Copy)]
pub struct Ground<'a> {
    pub site: &'a Site,
    pub server: &'a Server,
    pub locations: &'a Locations,
    pub index: &'a [IndexName],
    pub length: u64,
}
