//! Laws: how reading, spelling and writing of objects belong together.
ghost use Rattle.rio_format.specs.Growth.{FittingIsAllRead, FittingReadStays, FittingSpelledStays, LaterLeavePicks, ReadStays, SpelledStays};
ghost use Rattle.rio_format.specs.Laws.{BrokenIsFault, BrokenIsNotSpelled, FaultIsBroken, FaultIsNotSpelled, IsBrokenOnce, IsSpelledOnce, NoBaseIsDeeper, ReadIsSpelled, SpelledIsRead, SpelledOrBroken, WrittenIsSpelled};

/// What spells an object is read as it, whatever follows, and reading stands behind it.
pub fn spelled_is_read()
    ensures { SpelledIsRead }
{}

/// What is read as an object spells it: the bytes before the place where reading stands.
pub fn read_is_spelled()
    ensures { ReadIsSpelled }
{}

/// One object of a class is spelled at the beginning of some bytes, by one front of them.
pub fn is_spelled_once()
    ensures { IsSpelledOnce }
{}

/// Where reading gives a fault, no front of the bytes spells an object of the class.
pub fn fault_is_not_spelled()
    ensures { FaultIsNotSpelled }
{}

/// What is written for a value that fits its class spells it, if the value isn't too deep, its versions
/// can be written and its places are below 2^30 - 2.
pub fn written_is_spelled()
    ensures { WrittenIsSpelled }
{}

/// A class that has another among its bases has it within as many levels as there are classes and one more.
pub fn no_base_is_deeper()
    ensures { NoBaseIsDeeper }
{}

/// Where reading gives a fault, every part before one is spelled, and this one breaks its rule with the fault at its place.
pub fn fault_is_broken()
    ensures { FaultIsBroken }
{}

/// Where bytes break their rule with a fault, and every part before is spelled, reading gives the fault.
pub fn broken_is_fault()
    ensures { BrokenIsFault }
{}

/// Of all bytes a front spells an object of the class, or they break with a fault: one of the two, and with one fault.
pub fn one_answer()
    ensures some { SpelledOrBroken }
    ensures apart { BrokenIsNotSpelled }
    ensures one { IsBrokenOnce }
{}

/// What is read of an object, if none in it is opaque, is the same wherever the same classes are picked, and classes
/// after the others leave what is picked of those.
pub fn read_stays()
    ensures read { ReadStays }
    ensures spelled { SpelledStays }
    ensures picks { LaterLeavePicks }
    ensures whole { FittingIsAllRead }
{}

/// With one class more a value that fits its class is read as it was, from whatever bytes spell it.
pub fn fitting_values_stay_read()
    ensures read { FittingReadStays }
    ensures spelled { FittingSpelledStays }
{}
