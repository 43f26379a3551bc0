//! The bytes that a word of hexadecimal digits stands for.
ghost use Rattle.std.specs.Prelude.{◌≡◌, IfOk, IsTrue, OnOk};
ghost use Rattle.rams_model.specs.Texts.{is_hex, bytes_in};

use crate::values::is_dash;
use ram_io::NoMemory;
use std::alloc::Global;

/// The bytes of a word that `read_line` gave.
pub fn decode(alloc: Global, hex: &[u8]) -> Result<Vec<u8>, NoMemory>
    requires { IsTrue (is_hex hex.now) }
    ensures { IfOk result (λ bytes. bytes.items ≡ bytes_in hex.now) }
{
    let mut bytes = Vec::new(alloc);
    decode_to(hex, &mut bytes)?;
    Ok(bytes)
}

/// Puts the bytes of a word that `read_line` gave in place of what `room` holds; an error may leave
/// anything there.
pub fn decode_to(hex: &[u8], room: &mut Vec<u8>) -> Result<(), NoMemory>
    requires { IsTrue (is_hex hex.now) }
    ensures { OnOk result (room.new.items ≡ bytes_in hex.now) }
{
    if is_dash(hex) {
        room.clear();
        return Ok(());
    }
    hex_text::decode_digits(room, hex)?;
    Ok(())
}
