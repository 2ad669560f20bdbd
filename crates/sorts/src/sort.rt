//! A sealed sort.
use crate::description::Description;

// What a description is sealed into. It takes no further column, dependency or part.
#[derive(Drop)]
pub struct Sort {
    pub(crate) description: Description,
}
