//! What the records of a block are split by.
ghost use Rattle.std.specs.Prelude.{◌≡◌, false, []};
ghost use Rattle.las_header.specs.Fields.{is_packed};
ghost use Rattle.las_header.specs.Vlrs.{laszip_vlrs_of};

use crate::part_names::PartNames;
use las_filter::Rule;
use las_header::Head;

/// How parts are named, the plain head that they have, the rule by which records have a part, and the size of a record.
#[derive(Drop)]
pub(crate) struct Splitter<'a> {
    pub(crate) names: &'a PartNames,
    pub(crate) head: &'a Head,
    pub(crate) rule: &'a Rule,
    pub(crate) size: usize,
    ghost plain: { is_packed head.now.bytes ≡ false },
    ghost none: { laszip_vlrs_of head.now.bytes ≡ [] },
}
