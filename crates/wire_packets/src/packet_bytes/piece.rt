//! Pieces put behind one another where there is room.
ghost use Rattle.std.specs.Prelude.{◌≡◌, ◌+◌, ◌++◌, ◌≤◌, length, vec_len, vec_capacity};

/// Puts the piece behind the text, which has room for it.
pub fn put(text: &mut Vec<u8>, piece: &[u8])
    requires { vec_len text.old + length piece.now ≤ vec_capacity text.old }
    ensures items { text.new.items ≡ text.old.items ++ piece.now }
    ensures len { vec_len text.new ≡ vec_len text.old + length piece.now }
    ensures capacity { vec_capacity text.old ≤ vec_capacity text.new }
{
    match text.extend_from_slice(piece) {
        Ok(()) => (),
        Err(_) => unreachable!(),
    }
}
