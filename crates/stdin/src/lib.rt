// Standard input, read to its end, of which the first bytes are kept.
#![tactic(auto)]

ghost use Rattle.std.specs.Prelude.{length};
ghost use Rattle.stdin.specs.Inner.{PieceWithin};
ghost use Rattle.stdin.specs.Input.{KeptWithin, Keeps};

use std::io;
use std::io::Read;

// One read to the front of a buffer. Answers how many bytes it gave, and nothing at the end of the input.
#[tactic(auto, unfolding(crate::specs::Inner::PieceWithin))]
fn read_piece<R: Read>(reader: &mut R, buffer: &mut [u8]) -> io::Result<Option<usize>>
    ensures { PieceWithin (length buffer.old) result }
{
    let count = reader.read(buffer)?;
    if count == 0 {
        return Ok(None);
    }
    Ok(Some(count))
}

// Reads into the buffer until it is full or the input ends. Answers how many bytes are kept.
#[tactic(auto, unfolding(crate::specs::Inner::PieceWithin, crate::specs::Input::KeptWithin))]
fn keep_front<R: Read>(reader: &mut R, buffer: &mut [u8]) -> io::Result<usize>
    ensures { KeptWithin (length buffer.old) result }
{
    let mut kept = 0;
    // Kept: each turn is one read, which says how many bytes it gave.
    while kept < buffer.len() {
        let Some(count) = read_piece(reader, &mut buffer[kept..])? else {
            break;
        };
        kept += count;
    }
    Ok(kept)
}

// Reads to the end of the input and keeps nothing. The turns are bounded, since a loop has to end: no input takes so many.
fn drop_rest<R: Read>(reader: &mut R) -> io::Result<()> {
    let mut buffer = [0u8; 65536];
    for _ in (0..u64::MAX).rev() {
        if read_piece(reader, &mut buffer)?.is_none() {
            return Ok(());
        }
    }
    Ok(())
}

// Reads to the end of the input and keeps as many of its first bytes as the buffer holds. Answers how many these are.
#[tactic(auto, unfolding(crate::specs::Input::KeptWithin))]
pub fn read_all(rt: &impl std::io::Input, buffer: &mut [u8]) -> io::Result<usize>
    ensures { KeptWithin (length buffer.old) result }
{
    let mut reader = rt.reader();
    let count = keep_front(&mut reader, buffer)?;
    if count == buffer.len() {
        drop_rest(&mut reader)?;
    }
    Ok(count)
}

// The same with a buffer of so many bytes.
pub fn read_whole<const N: usize>(
    rt: &impl std::io::Input,
    buffer: &mut [u8; N],
) -> io::Result<usize>
    ensures { Keeps N buffer.new result }
{
    read_all(rt, buffer)
}
