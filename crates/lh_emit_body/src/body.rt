//! The body of an entity.

use crate::lines::BodyLineList;
use lh_unit::inst::NameList;

/// The instructions of an entity, with the names of its values.
#[derive(Drop)]
pub struct Body {
    /// `ValueId(k)` is the name at place k; the first names are those of the arguments.
    pub names: NameList,
    pub lines: BodyLineList,
}
