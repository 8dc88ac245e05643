// Whole rows: the numbers of an answer in front, and behind them what no answer may change.
ghost use Rattle.std.specs.Prelude.{◌≡◌, ◌≤◌, ℤ, map, length, pos};
ghost use Rattle.numbers.specs.Lists.{overwritten};
ghost use Rattle.cases.specs.Rows.{byte_of, image_bytes, number_lent, byte_lent, front_holds, sizes_are, Compares};

use crate::rows;

// What a lent row of numbers holds before the call.
pub const NUMBER: i32 = -77;

// What a lent row of bytes holds before the call.
pub const BYTE: u8 = 165;

// The most bytes that an image of a case has.
pub const MOST_BYTES: usize = 512;

// Whether what a row holds is the same, by this test, as the numbers of a front, and behind them what the row was lent with.
fn holds<T: Copy, F: Fn(T, i32) -> bool>(row: &[T], lent: i32, front: &[i32], same: F) -> bool
    requires { F.IsAlwaysCallable same }
    ensures { (left : T → ℤ) (right : ℤ → ℤ) → Compares (F.post same) left right → result ≡ front_holds (right lent) (map left row.now) (map right front.now) }
{
    row.iter()
        .enumerate()
        .all(|(i, found)| same(*found, rows::number_at(front, i, lent)))
        && front.len() <= row.len()
}

// Whether a lent row holds these numbers, and behind them what it was lent with.
pub(crate) fn numbers_hold(row: &[i32], front: &[i32]) -> bool
    ensures { result ≡ front_holds number_lent row.now front.now }
{
    holds(row, NUMBER, front, |found, wanted| found == wanted)
}

// The same of a lent row of bytes.
pub(crate) fn bytes_hold(row: &[u8], front: &[i32]) -> bool
    ensures { result ≡ front_holds (pos byte_lent) (map pos row.now) front.now }
{
    holds(
        row,
        i32::from(BYTE),
        front,
        |found, wanted| i32::from(found) == wanted,
    )
}

// Whether an answer's sizes are these, with 0 past the last.
pub(crate) fn sizes_are(sizes: &[usize], expected: &[i32]) -> bool
    ensures { result ≡ sizes_are sizes.now expected.now }
{
    holds(
        sizes,
        0,
        expected,
        |found, wanted| found == numbers::arithmetic::unsigned_part(wanted) as usize,
    )
}

// The numbers of a row as bytes, in front of a lent one that is no shorter.
fn put_bytes(bytes: &mut [u8], row: &[i32])
    requires { length row.now ≤ length bytes.old }
    ensures { bytes.new ≡ overwritten bytes.old 0 (map byte_of row.now) }
{
    for (i, number) in row.iter().enumerate() {
        // Kept: the size modulo 256, as the definition says; no conversion of the library takes a number beyond a byte.
        bytes[i] = (numbers::arithmetic::unsigned_part(*number) % 256) as u8;
    }
}

// The bytes of a case's image, in front of as many as such an image may have; none where it has more.
pub(crate) fn image_bytes(image: &[i32]) -> Option<[u8; MOST_BYTES]>
    ensures { result ≡ image_bytes image.now }
{
    if MOST_BYTES < image.len() {
        return None;
    }
    let mut bytes = [0u8; MOST_BYTES];
    put_bytes(&mut bytes, image);
    Some(bytes)
}
