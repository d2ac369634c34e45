// A text that is being read: what it says so far, and what may stand next.
ghost use Rattle.std.specs.Prelude.{◌<◌};
ghost use Rattle.hex_text.specs.Places.{digit_held};

// What stands before the next byte of the text.
#[derive(Clone, Copy)]
pub(crate) enum Place {
    // Nothing, or a blank.
    Blank,
    // The first digit of a number.
    Digit(u8),
    // A whole number.
    Number,
    // A comment.
    Comment,
}

// A text that is being read: the bytes that it says so far.
#[derive(Drop)]
pub(crate) struct Reader {
    pub(crate) place: Place,
    pub(crate) bytes: Vec<u8>,
    ghost small: { digit_held place < 16 },
}
