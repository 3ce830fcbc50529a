// What holds of each page.
ghost use Rattle.error_page.specs.Page.{PageHasLength};

/// A page has 120 bytes, and the status with its phrase twice.
pub fn page_has_length()
    ensures { PageHasLength }
{}
