ghost use Rattle.std.specs.Prelude.{◌≡◌, length};

/// The verdicts of lines, or the marks of those that were not taken, and for each the place that was found for its PAN.
#[derive(Clone, Copy, Debug)]
pub struct Placed<'a> {
    pub verdicts: &'a [u8],
    pub found: &'a [u16],
    ghost each: { length found.now ≡ length verdicts.now },
}
