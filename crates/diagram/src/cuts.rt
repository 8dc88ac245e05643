// A table with the classes of all its cuts: what Build, Plan, Compile and Reach go by.
ghost use Rattle.std.specs.Prelude.{◌≡◌, ◌≤◌};
ghost use Rattle.blocks.specs.Classes.{class_count};
ghost use Rattle.blocks.specs.Inner.Layout.{AllClassed};
ghost use Rattle.diagram.specs.Accepted.{Accepted};

// An accepted table, and rows of all its cuts: the class of each block, the first block of each class, and the class count of each cut.
#[derive(Clone, Copy)]
pub struct Cuts<'a> {
    pub n: usize,
    pub table: &'a [i32],
    pub classes: &'a [usize],
    pub firsts: &'a [usize],
    pub counts: &'a [usize],
    ghost admitted: { Accepted n table.now },
    ghost classed: { AllClassed n table.now classes.now firsts.now counts.now },
}

impl Cuts<'_> {
    // How many classes cut h has.
    pub fn class_count(&self, h: usize) -> usize
        requires { h ≤ self.now.n }
        ensures { result ≡ class_count self.now.n self.now.table.now h }
    {
        self.counts[h]
    }
}
