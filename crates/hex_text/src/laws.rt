//! Laws of the definitions: each is the contract of a function that does nothing.
ghost use Rattle.hex_text.specs.{WrittenDecodes, WrittenIsLower, LowerIsWritten};

/// Texts of lower-case digits, an even number of them, and bytes go together one to one: what is
/// encoded decodes to itself, and what is decoded is encoded to itself.
pub fn texts_are_bytes()
    ensures written { WrittenDecodes }
    ensures lower { WrittenIsLower }
    ensures text { LowerIsWritten }
{}
