ghost use Rattle.std.specs.Prelude.{◌≡◌, Some, IfOk, string_bytes, IsUtf8};

use crate::plain_text::PlainText;
use crate::printed::{LONGEST_TEXT, Printed};
use std::alloc::{AllocError, Global};
use std::fmt;

/// A share that prints as its text.
#[derive(Clone, Copy)]
pub struct Text<S>(pub S);

impl<S: PlainText> fmt::Display for Text<S> {
    ghost output = { λ t. Some (S.text t.0) };

    fn fmt<W: fmt::Write>(&self, f: &mut fmt::Formatter<W>) -> fmt::Result {
        let mut space = [0u8; LONGEST_TEXT];
        f.write_str(text_in(self.0, &mut space))
    }
}

// The text of a share, written into a space and read there.
fn text_in<S: PlainText>(share: S, space: &mut [u8; LONGEST_TEXT]) -> &str
    ensures { result.now ≡ S.text share }
{
    let length = share.write(space);
    str::from_utf8(&space[..length]).unwrap()
}

/// The text of a share as a string, for every printed kind, whether or not its texts are plain: its bytes are the
/// share's text wherever that is UTF-8.
pub fn text_of<S: Printed>(alloc: Global, share: S) -> Result<String, AllocError>
    ensures { IfOk result (λ t. IsUtf8 (S.text share) → string_bytes t ≡ S.text share) }
{
    spell(alloc, share)
}

// The same: writes the text into a space of its own. (A function of its own, so that a wrong share is refused where
// it is handed over.)
fn spell<S: Printed>(alloc: Global, share: S) -> Result<String, AllocError>
    ensures { IfOk result (λ t. IsUtf8 (S.text share) → string_bytes t ≡ S.text share) }
{
    let mut space = [0u8; LONGEST_TEXT];
    let length = share.write(&mut space);
    String::from_utf8_lossy(alloc, &space[..length])
}
