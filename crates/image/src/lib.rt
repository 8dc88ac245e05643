// The card image: its commands and their sizes, the places that reading reaches, what Run and Expand answer, and the laws of all that.
// It knows nothing of tables.

#![tactic(auto)]

ghost use Rattle.std.specs.Prelude.{◌≡◌};
ghost use Rattle.numbers.specs.Widths.{cell_bits};
ghost use Rattle.image.specs.Inner.Bounds.{CellFits};
ghost use Rattle.image.specs.Inner.Kinds.{due_of, is_end};
ghost use Rattle.image.specs.Reader.{due_byte, due_size};

// The bytes of 0x56 with its operands.
pub const TABLE_SIZE: usize = 6;

// The bytes of 0x43 with its operands.
pub const CELL_SIZE: usize = 7;

// The bytes of 0x57 with its operands.
pub const WORD_SIZE: usize = 7;

// The bytes of 0x45 with its operand.
pub const END_SIZE: usize = 5;

// The most classes that a cut has: those of single values, were all of them different.
pub const MOST_CLASSES: usize = numbers::MOST_VALUES;

// A command of the image with its operands.
#[derive(Clone, Copy)]
pub enum Command {
    // 0x56: variables and offset.
    Table {
        n: usize,
        offset: i32,
    },
    // 0x43: variables of the group, both class counts, weight width.
    Cell {
        group: usize,
        incoming: usize,
        outgoing: usize,
        width: usize,
    },
    // 0x57: outgoing class and weight.
    Word {
        class: usize,
        weight: i32,
    },
    // 0x45: total memory bits.
    End {
        bits: usize,
    },
}

impl Command {
    // Whether it is the last one, 0x45.
    #[tactic(auto, unfolding(crate::specs::Inner::Kinds::is_end))]
    pub fn is_end(self) -> bool
        ensures { result ≡ is_end self }
    {
        matches!(self, Command::End { .. })
    }
}

// A place in the image, with what the commands before it leave to be judged.
#[derive(Clone, Copy, Default)]
pub struct Place {
    // The next byte.
    pub at: usize,
    // The table's variables, 0 before the first command.
    pub n: usize,
    // Variables of the cells still to come.
    pub left: usize,
    // Classes at the cut reached: the outgoing count of the last cell begun, 1 before the first.
    pub classes: usize,
    // Words still to come in the present cell, its group, and its weight width as written.
    pub words: usize,
    pub group: usize,
    pub width: usize,
    // The least and the greatest weight of the present cell so far, or 0.
    pub least: i32,
    pub greatest: i32,
    // Memory bits of the cells begun.
    pub bits: usize,
}

// The kinds of commands.
#[derive(Clone, Copy)]
pub enum Kind {
    Table,
    Cell,
    Word,
    End,
}

impl Kind {
    // The byte that a command of this kind begins with.
    #[tactic(auto, unfolding(crate::specs::Inner::Kinds::due_of, crate::specs::Reader::due_byte))]
    pub fn byte(self) -> u8
        ensures { result ≡ due_byte (due_of self) }
    {
        match self {
            Kind::Table => 0x56,
            Kind::Cell => 0x43,
            Kind::Word => 0x57,
            Kind::End => 0x45,
        }
    }

    // The bytes that a command of this kind takes, its operands included.
    #[tactic(auto, unfolding(crate::specs::Inner::Kinds::due_of, crate::specs::Reader::due_size))]
    pub fn size(self) -> usize
        ensures { result ≡ due_size (due_of self) }
    {
        match self {
            Kind::Table => TABLE_SIZE,
            Kind::Cell => CELL_SIZE,
            Kind::Word => WORD_SIZE,
            Kind::End => END_SIZE,
        }
    }
}

// Where evaluation stands: the next cell, the variables left, the class, and what the cells so far gave.
#[derive(Clone, Copy)]
pub struct Progress {
    pub at: usize,
    pub left: usize,
    pub class: usize,
    pub value: i32,
    pub words: usize,
}

// What evaluation gives: the value, and the words read for it.
#[derive(Clone, Copy)]
pub struct Evaluated {
    pub value: i32,
    pub words: usize,
}

// The memory bits of a cell.
pub fn cell_bits(incoming: usize, group: usize, outgoing: usize, width: usize) -> usize
    requires { CellFits incoming group outgoing width }
    ensures { result ≡ cell_bits incoming group outgoing width }
{
    let address = numbers::widths::rail_width(incoming as u32) + group;
    let word = numbers::widths::rail_width(outgoing as u32) + width;
    (1 << address) * word
}
