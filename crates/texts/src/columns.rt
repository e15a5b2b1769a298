ghost use Rattle.std.specs.Prelude.{◌*◌, ◌≤◌};
ghost use Rattle.texts.specs.Promises.{ColumnsOf, ColumnsHas};

/// The first and the last position of a field, counted from 1 as in the document's tables.
#[derive(Clone, Copy, Debug, PartialEq, Eq)]
pub struct Columns {
    pub from: usize,
    pub to: usize,
    ghost forward: { (1 ≤ from) × (from ≤ to) },
}

impl Columns {
    /// What stands there in a text. A text that is too short has a shorter field.
    pub fn of(self, text: &[u8]) -> &[u8]
        ensures { ColumnsOf self.from self.to text.now result.now }
    {
        crate::field(text, self.from, self.to)
    }

    /// Does this value stand there.
    pub fn has(self, text: &[u8], value: &[u8]) -> bool
        ensures { ColumnsHas self.from self.to text.now value.now result }
    {
        crate::has_text(text, self.from, self.to, value)
    }
}
