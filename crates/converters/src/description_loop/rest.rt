//! What stands behind a head.
ghost use Rattle.std.specs.Prelude.{◌≡◌, ◌++◌, ◌<◌, ◌≤◌, IfOk, OnOk, length};
ghost use Rattle.std.specs.Io.KnownBytes.{prepend_known};
ghost use Rattle.trace_loop.specs.{IfTold, IsStoppedByRead, OnlyMemoryStops};
ghost use Rattle.converters.specs.description_loop.{IsFrontOf, TakesPiece};

use crate::description_loop::sdp_config::{LONGEST_LINE, MOST_LINES};
use line_io::LineReader;
use ram_io::{NoMemory, Source};
use std::alloc::Global;
use trace_loop::Stop;

/// The end of a line, CR LF.
const LINE_END: usize = 2;

/// Most bytes of a description that are looked at: one more than its lines can have, with their ends.
const MOST_LOOKED_AT: usize = MOST_LINES as usize * (LONGEST_LINE + LINE_END) + 1;

/// Most bytes that are asked of a source at a time.
const PIECE: usize = 4096;

/// A buffer for one piece.
fn buffer(alloc: Global) -> Result<Vec<u8>, NoMemory>
    ensures { IfOk result (λ v. length v.items ≡ 4096) }
{
    Ok(vec![in alloc; 0u8; PIECE]?)
}

/// Appends the bytes.
fn append(text: &mut Vec<u8>, bytes: &[u8]) -> Result<(), NoMemory>
    ensures { OnOk result (text.new.items ≡ text.old.items ++ bytes.now) }
{
    text.extend_from_slice(bytes)?;
    Ok(())
}

/// Takes one piece of the source to the end of the text, and says how many bytes it has: 0 at the end of
/// input.
fn take_piece<S: Source>(
    source: &mut S,
    piece: &mut [u8],
    text: &mut Vec<u8>,
) -> Result<usize, Stop>
    requires { 0 < length piece.old }
    ensures taken { IfOk result (λ n. TakesPiece (S.left source.old) (S.left source.new) text.old.items text.new.items n) }
    ensures bound { IfOk result (λ n. n ≤ length piece.old) }
    ensures size { length piece.new ≡ length piece.old }
    ensures cause { IsStoppedByRead (S.faults source.old) (S.faults source.new) result }
    ensures steady { S.is_steady source.old → OnlyMemoryStops result (S.is_steady source.new) }
{
    let Ok(taken) = source.take(piece) else {
        return Err(Stop::Read);
    };
    append(text, &piece[..taken])?;
    Ok(taken)
}

/// The bytes that are left behind the lines that were read, up to `MOST_LOOKED_AT` of them.
pub fn read_rest<S: Source>(
    alloc: Global,
    reader: &LineReader,
    source: &mut S,
) -> Result<Vec<u8>, Stop>
    ensures front { IfOk result (λ text. IfTold (prepend_known reader.now.kept (S.left source.old)) (IsFrontOf text.items)) }
    ensures cause { IsStoppedByRead (S.faults source.old) (S.faults source.new) result }
    ensures steady { S.is_steady source.old → OnlyMemoryStops result (S.is_steady source.new) }
{
    let mut text = Vec::new(alloc);
    append(&mut text, reader.kept())?;
    let mut piece = buffer(alloc)?;
    'pieces: while text.len() < MOST_LOOKED_AT {
        let room = PIECE.min(MOST_LOOKED_AT - text.len());
        if take_piece(source, &mut piece[..room], &mut text)? == 0 {
            return Ok(text);
        }
    }
    Ok(text)
}
