//! What holds of objects in another version.
ghost use Rattle.rio_map.specs.Laws.{SameVersionStays};

/// A value that fits a class of a state stays as it is in the version that all objects of a class in it have.
pub fn same_version_stays()
    ensures { SameVersionStays }
{}
