// Bytes as they are, behind one another.
ghost use Rattle.std.specs.Prelude.{[], ◌∷◌, ◌+◌, ◌≤◌, length};
ghost use Rattle.text.specs.Put.{Adds, Room};

// The bytes that are lent, and the place behind the text that stands in them. Each method asks for the room (`Room`) of its own text: no ghost field says it for all of them.
// A type of text's own: a method stands only in the crate of its type, so that with one type below text and `writing` all that text puts would be functions, or a trait and its contracts twice.
// No `write!`, a word of text by it does not prove: std says what it writes where it answers Ok, and of no writer that it does.
#[derive(Drop)]
pub struct Output<'a> {
    pub bytes: &'a mut [u8],
    pub at: usize,
}

impl Output<'_> {
    pub(crate) fn byte(&mut self, v: u8)
        requires { Room self.old (v ∷ []) }
        ensures { Adds self.old self.new (v ∷ []) }
    {
        self.bytes[self.at] = v;
        self.at += 1;
    }

    pub(crate) fn bytes(&mut self, text: &[u8])
        requires { Room self.old text.now }
        ensures { Adds self.old self.new text.now }
    {
        let end = self.at + text.len();
        self.bytes[self.at..end].copy_from_slice(text);
        self.at = end;
    }
}
