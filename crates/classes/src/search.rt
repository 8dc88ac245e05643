// The class of a block among those known, how many of them are tried until it is found, and how many blocks have it so far.
ghost use Rattle.std.specs.Prelude.{◌≡◌, ◌≤◌, ◌<◌, length, get_or};
ghost use Rattle.blocks.specs.Blocks.{differences};
ghost use Rattle.blocks.specs.Classes.{same};
ghost use Rattle.blocks.specs.Inner.Layout.{part};
ghost use Rattle.classes.specs.Inner.Searching.{part_differences, found_between, KnownClasses, looked_up, uses_with, SmallCounts, found_among};

// A class that was looked up, and how many classes were tried, that one included.
#[derive(Clone, Copy)]
struct Looked {
    class: usize,
    tried: usize,
}

// What the search for a block's class finds: the class, how many classes were tried, that one included, and how many blocks up to
// and including this one have it.
#[derive(Clone, Copy)]
pub(crate) struct Found {
    pub class: usize,
    pub tried: usize,
    pub uses: usize,
}

// Whether two blocks that are likely to differ have equal differences: the last differences tell most blocks apart.
fn same_other(left: &[i32], right: &[i32]) -> bool
    ensures { result ≡ same (differences left.now) (differences right.now) }
{
    blocks::comparing::last_difference(left) == blocks::comparing::last_difference(right)
        && blocks::comparing::same_differences(left, right)
}

// The classes known so far, of blocks of one size: the first block of each and how many blocks have it, and the latest class, that of
// the block just before.
#[derive(Clone, Copy)]
pub(crate) struct Known<'a> {
    pub table: &'a [i32],
    pub size: usize,
    pub firsts: &'a [usize],
    pub use_counts: &'a [usize],
    pub latest: usize,
    ghost known: { KnownClasses table.now size firsts.now latest },
    ghost counted: { SmallCounts use_counts.now },
}

impl Known<'_> {
    // The first block of a class.
    fn first_block(&self, class: usize) -> &[i32]
        requires { class < length self.now.firsts.now }
        ensures { result.now ≡ part self.now.table.now self.now.size (get_or self.now.firsts.now class 0) }
    {
        let start = self.firsts[class] * self.size;
        let end = start + self.size;
        &self.table[start..end]
    }

    // The first class from one number on and before another whose first block has the differences of these values.
    fn find_between(&self, from: usize, to: usize, values: &[i32]) -> Option<usize>
        requires { (from ≤ to) × (to ≤ length self.now.firsts.now) }
        ensures { result ≡ found_between (part_differences self.now.table.now self.now.size self.now.firsts.now) from to (differences values.now) }
    {
        // Kept: the paper fixes this form, a loop that yields the class number by break.
        let mut class = from;
        let found = loop {
            if class == to {
                break to;
            }
            if same_other(self.first_block(class), values) {
                break class;
            }
            class += 1;
        };
        (found < to).then_some(found)
    }

    // The class of a block among the known ones; where none is equal, the next new number. The latest class is tried first, then the
    // others from class 0 up.
    fn look_up(&self, values: &[i32]) -> Looked
        ensures { result ≡ looked_up (part_differences self.now.table.now self.now.size self.now.firsts.now) self.now.latest (differences values.now) }
    {
        let known = self.firsts.len();
        if known == 0 {
            return Looked { class: 0, tried: 0 };
        }
        if blocks::comparing::same_differences(self.first_block(self.latest), values) {
            return Looked {
                class: self.latest,
                tried: 1,
            };
        }
        if let Some(class) = self.find_between(0, self.latest, values) {
            // The latest, and all up to this one.
            return Looked {
                class,
                tried: class + 2,
            };
        }
        if let Some(class) = self.find_between(self.latest + 1, known, values) {
            // All up to this one, the latest among them.
            return Looked {
                class,
                tried: class + 1,
            };
        }
        Looked {
            class: known,
            tried: known,
        }
    }

    // How many blocks have a class with one block more; a class without one is new.
    fn uses_with(&self, class: usize) -> usize
        ensures { result ≡ uses_with self.now.use_counts.now class }
    {
        self.use_counts.get(class).copied().unwrap_or(0) + 1
    }

    // The class of a block among the known ones, how many of them are tried until it is found, and how many blocks have it then; where
    // none is equal, it is the next new number.
    pub(crate) fn find_class(&self, values: &[i32]) -> Found
        ensures { result ≡ found_among (part_differences self.now.table.now self.now.size self.now.firsts.now) self.now.use_counts.now self.now.latest (differences values.now) }
    {
        let looked = self.look_up(values);
        Found {
            class: looked.class,
            tried: looked.tried,
            uses: self.uses_with(looked.class),
        }
    }
}
