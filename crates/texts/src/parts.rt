ghost use Rattle.std.specs.Prelude.{◌*◌, ◌≤◌, ◌<◌, length};
ghost use Rattle.texts.specs.Promises.{PartsPart};

/// The first `count` parts of a block, each `width` bytes long.
#[derive(Clone, Copy, Debug)]
pub struct Parts<'a> {
    pub block: &'a [u8],
    pub width: usize,
    pub count: usize,
    ghost whole: { count * width ≤ length block.now },
}

impl<'a> Parts<'a> {
    /// The part at place `i`, counted from 0.
    #[tactic(auto, using(theory::specs::laws::Parts::part_fits))]
    pub fn part(&self, i: usize) -> &'a [u8]
        requires { i < self.now.count }
        ensures { PartsPart self.now.block.now self.now.width i result.now }
    {
        crate::part(self.block, self.width, i)
    }
}
