// Big-endian numbers of fixed width, written into a buffer.
ghost use Rattle.std.specs.Prelude.{◌≡◌, ◌+◌, ◌≤◌, ◌<◌, length};
ghost use Rattle.numbers.specs.Lists.{overwritten};
ghost use Rattle.operands.specs.Bytes.{big_endian, signed_bytes};

// Two bytes of a number at a place.
pub fn write_two(buffer: &mut [u8], at: usize, number: usize)
    requires { at + 2 ≤ length buffer.old }
    ensures { buffer.new ≡ overwritten buffer.old at (big_endian 2 number) }
{
    buffer[at..at + 2].copy_from_slice(&((number % 65536) as u16).to_be_bytes());
}

// Four bytes of a number at a place.
pub fn write_four(buffer: &mut [u8], at: usize, number: usize)
    requires { at + 4 ≤ length buffer.old }
    ensures { buffer.new ≡ overwritten buffer.old at (big_endian 4 number) }
{
    buffer[at..at + 4].copy_from_slice(&((number % 4294967296) as u32).to_be_bytes());
}

// Four bytes of a signed number at a place, in two's complement.
pub fn write_signed(buffer: &mut [u8], at: usize, number: i32)
    requires { at + 4 ≤ length buffer.old }
    ensures { buffer.new ≡ overwritten buffer.old at (signed_bytes number) }
{
    buffer[at..at + 4].copy_from_slice(&number.to_be_bytes());
}
