//! Laws of what is kept of a list of records.

ghost use Rattle.las_filter.specs.Kept.{GrowsOneByOne, CountsItsRecords};

/// What a plan keeps of a list of records can be said one record at a time, in the order of the list: a record that
/// does not pass, or that follows a refused one, adds nothing. The number of a refused record is the number of records
/// kept before it.
pub fn kept_one_by_one()
    ensures grows { GrowsOneByOne }
    ensures counts { CountsItsRecords }
{}
