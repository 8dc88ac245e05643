// Commands with their operands, written into a buffer.
ghost use Rattle.std.specs.Prelude.{◌≡◌, ◌+◌, ◌≤◌, ◌<◌, length};
ghost use Rattle.numbers.specs.Lists.{overwritten};
ghost use Rattle.image.specs.Commands.{command_bytes, table_size, cell_size, word_size, end_size};
ghost use Rattle.image.specs.declared.Command.TheVariants as commands;

use image::Kind;

// The table command, in front.
pub(crate) fn write_table(buffer: &mut [u8], n: usize, offset: i32)
    requires { (table_size ≤ length buffer.old) × (n < 256) }
    ensures { buffer.new ≡ overwritten buffer.old 0 (command_bytes (commands.Table n offset)) }
{
    buffer[0] = Kind::Table.byte();
    buffer[1] = n as u8;
    operands::writing::write_signed(buffer, 2, offset);
}

// A cell's own command, in front.
pub(crate) fn write_head(
    buffer: &mut [u8],
    group: usize,
    incoming: usize,
    outgoing: usize,
    width: usize,
)
    requires { (cell_size ≤ length buffer.old) × ((group < 256) × (width < 256)) }
    ensures { buffer.new ≡ overwritten buffer.old 0 (command_bytes (commands.Cell group incoming outgoing width)) }
{
    buffer[0] = Kind::Cell.byte();
    buffer[1] = group as u8;
    operands::writing::write_two(buffer, 2, incoming);
    operands::writing::write_two(buffer, 4, outgoing);
    buffer[6] = width as u8;
}

// A word at a place.
pub(crate) fn write_word(buffer: &mut [u8], at: usize, class: usize, weight: i32)
    requires { at + word_size ≤ length buffer.old }
    ensures { buffer.new ≡ overwritten buffer.old at (command_bytes (commands.Word class weight)) }
{
    buffer[at] = Kind::Word.byte();
    operands::writing::write_two(buffer, at + 1, class);
    operands::writing::write_signed(buffer, at + 3, weight);
}

// The last command, at a place.
pub(crate) fn write_end(buffer: &mut [u8], at: usize, bits: usize)
    requires { at + end_size ≤ length buffer.old }
    ensures { buffer.new ≡ overwritten buffer.old at (command_bytes (commands.End bits)) }
{
    buffer[at] = Kind::End.byte();
    operands::writing::write_four(buffer, at + 1, bits);
}
