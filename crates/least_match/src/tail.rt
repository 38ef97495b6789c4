//! The columns among which an exchange for one of them is looked for.

ghost use Rattle.std.specs.Bool.{OnTrue, OnFalse};
ghost use Rattle.std.specs.Prelude.{◌≡◌, ◌<◌, length};
ghost use Rattle.bip_defs.specs.Matrix.{cols};
ghost use Rattle.least_match.specs.Classes.{IsOther, IsInTail};

use sp_ids::Col;
use sp_pattern::Pattern;

/// The columns from one on that are of its class: those among which an exchange for it is looked
/// for.
#[derive(Clone, Copy)]
pub struct ClassTail<'p> {
    pub pattern: &'p Pattern,
    pub classes: &'p [u32],
    pub col: Col,
    ghost long: { length classes.now ≡ cols pattern.now },
    ghost own: { col < cols pattern.now },
}

impl ClassTail<'_> {
    /// Whether it has a column.
    pub fn has(&self, col: Col) -> bool
        requires col { col < cols self.now.pattern.now }
        ensures yes { OnTrue result
            (IsInTail self.now.pattern.now self.now.classes.now self.now.col col) }
        ensures no { OnFalse result (IsOther self.now.classes.now self.now.col col) }
    {
        self.col.0 <= col.0 && self.classes[col.0 as usize] == self.classes[self.col.0 as usize]
    }
}
