//! Laws of the class list that is written for classes.
ghost use Rattle.rio_model.specs.Described.{DescribedHaveNumbers, DescriptionsHaveSums, TreeClassesAreStated, WrittenAreDescribed, WrittenBytesAreRead, WrittenClassesAreRead, WrittenHaveNumbers, WrittenListFits, WrittenListHasVersions, WrittenListIsRead, WrittenListIsShallow, WrittenListIsSpelled};

/// The class list that is written for classes that declarations can give describes these classes, in order.
pub fn written_list_is_read()
    ensures { WrittenListIsRead }
{}

/// Classes that declarations can give have numbers that their elements can hold, and the classes that are written have
/// them if the declared ones do.
pub fn described_have_numbers()
    ensures declared { DescribedHaveNumbers }
    ensures written { WrittenHaveNumbers }
{}

/// The class list that is written for classes with such numbers fits the classes that it is read by. It isn't too deep,
/// and the versions of all its objects can be written.
pub fn written_list_fits()
    ensures fits { WrittenListFits }
    ensures shallow { WrittenListIsShallow }
    ensures versions { WrittenListHasVersions }
{}

/// The bytes of that list spell it, if its classes have such numbers and its places are below 2^30 - 2.
pub fn written_list_is_spelled()
    ensures { WrittenListIsSpelled }
{}

/// They are then read as the list, and, if declarations can give the classes, as the classes, whatever follows.
pub fn written_bytes_are_read()
    ensures list { WrittenBytesAreRead }
    ensures classes { WrittenClassesAreRead }
{}

/// Declarations can give the classes of trees, each with the checksum of its declaration, and so all classes that are
/// written, if they can give the declared ones.
pub fn tree_classes_are_stated()
    ensures trees { TreeClassesAreStated }
    ensures all { WrittenAreDescribed }
{}

/// The descriptions of the objects in a class list have the checksums of their declarations.
pub fn descriptions_have_sums()
    ensures { DescriptionsHaveSums }
{}
