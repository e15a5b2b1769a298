//! One text written over another.
#![tactic(auto)]

ghost use Rattle.std.specs.Prelude.{◌≡◌, ◌+◌, ◌-◌, ◌≤◌, length};
ghost use Rattle.writing.specs.Promises.{Copy, PutField};

/// The bytes of a text into another of its length.
// Stays a loop: `copy_from_slice` of texts whose lengths are known at run time alone calls the C library's `memmove`, a name that
// the archive of the writer would newly need.
pub fn copy(to: &mut [u8], from: &[u8])
    requires { length to.old ≡ length from.now }
    ensures { Copy to.old from.now to.new }
{
    for i in 0..from.len() {
        to[i] = from[i];
    }
}

/// A field written into a text from position `from` on, counted from 1.
// Stays: a position is a number that counts from 1, as in the document; a type for it would be made and taken apart at every
// call.
pub fn put_field(text: &mut [u8], from: usize, f: &[u8])
    requires { (1 ≤ from) × (from - 1 + length f.now ≤ length text.old) }
    ensures { PutField text.old from f.now text.new }
{
    let at = from - 1;
    let behind = at + f.len();
    copy(&mut text[at..behind], f);
}
