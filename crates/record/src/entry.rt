// One entry of a log.
use sheet::Edit;

// The term in which the entry was made, and its edit.
#[derive(Clone, Copy, Debug, Default, PartialEq, Eq)]
pub struct Entry {
    pub term: u32,
    pub edit: Edit,
}
