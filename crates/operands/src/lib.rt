// Operands: numbers of fixed width as bytes, the highest byte first, read and written at a place.
#![tactic(auto)]

pub mod writing;

ghost use Rattle.std.specs.Prelude.{◌≡◌, ◌+◌, ◌≤◌, ◌<◌, length, get_or};
ghost use Rattle.operands.specs.Inner.Operands.{Operand};
ghost use Rattle.operands.specs.Bytes.{signed_at};

// The byte at a place.
pub fn byte(image: &[u8], at: usize) -> usize
    requires { at < length image.now }
    ensures { (result ≡ get_or image.now at 0) × (result < 256) }
{
    image[at] as usize
}

// The number that one byte at a place stands for.
pub fn read_one(image: &[u8], at: usize) -> usize
    requires { at + 1 ≤ length image.now }
    ensures { Operand image.now at 1 result }
{
    byte(image, at)
}

// The number that two bytes at a place stand for, the higher byte first.
pub fn read_two(image: &[u8], at: usize) -> usize
    requires { at + 2 ≤ length image.now }
    ensures { Operand image.now at 2 result }
{
    u16::from_be_bytes([image[at], image[at + 1]]) as usize
}

// The number that four bytes at a place stand for, the highest byte first.
pub fn read_four(image: &[u8], at: usize) -> usize
    requires { at + 4 ≤ length image.now }
    ensures { Operand image.now at 4 result }
{
    u32::from_be_bytes([image[at], image[at + 1], image[at + 2], image[at + 3]]) as usize
}

// The signed number that four bytes at a place stand for, in two's complement.
pub fn read_signed(image: &[u8], at: usize) -> i32
    requires { at + 4 ≤ length image.now }
    ensures { result ≡ signed_at image.now at }
{
    i32::from_be_bytes([image[at], image[at + 1], image[at + 2], image[at + 3]])
}
