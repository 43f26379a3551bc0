//! There is one book, and the laws on moments speak of it.
ghost use Rattle.service_laws.specs.book_laws.{ExactlyOneBook, EarlierPartsAreLawful, BooksTellTheHistory, EachNoteWasMadeAtAMoment, EachMomentIsInABook};

/// For each list of events there is exactly one lawful book, and nothing that was answered changes
/// later.
pub fn exactly_one_book()
    ensures one { ExactlyOneBook }
    ensures earlier { EarlierPartsAreLawful }
{}

/// The notes and orders of a lawful book are those of the history of its events, in order, and each
/// note was made at a moment.
pub fn books_tell_the_history()
    ensures tells { BooksTellTheHistory }
    ensures made { EachNoteWasMadeAtAMoment }
    ensures told { EachMomentIsInABook }
{}
