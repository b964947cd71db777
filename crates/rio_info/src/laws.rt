//! Laws of the lengths of class lists.
ghost use Rattle.rio_model.specs.StateClasses.{LastLengthDecides, WrittenLengthsAreOne, WrittenListsGrow};

/// The list that is written for declared classes gets no shorter with one class more, and its length is the same wherever
/// it stands.
pub fn written_lists_grow()
    ensures grow { WrittenListsGrow }
    ensures anywhere { WrittenLengthsAreOne }
{}

/// Classes that are declared one after the other, and whose list is short enough for a record, are those of a state: the
/// list was short enough behind each of them.
pub fn last_length_decides()
    ensures { LastLengthDecides }
{}
