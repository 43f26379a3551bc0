//! Laws of the definitions: each is the contract of a function that does nothing.
ghost use Rattle.channel_cache.specs.{NotesAreOfTheBook};

/// The note of a live packet is the one that a channel's lawful book has for it.
pub fn notes_are_of_the_book()
    ensures { NotesAreOfTheBook }
{}
