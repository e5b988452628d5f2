//! Why a line is bad, and where.
ghost use Rattle.std.specs.Prelude.{◌≡◌};
ghost use Rattle.ksm_causes.specs.Troubles.{at};

use ksm_lines::Part;

/// Why a line is bad. Each bad line has one cause (own).
#[derive(Clone, Copy)]
pub enum Cause {
    /// More than 256 bytes.
    LongLine,
    /// A space before the first word.
    SpaceBefore,
    /// Two spaces between words.
    TwoSpaces,
    /// A space after the last word.
    SpaceAfter,
    /// A tab in a word.
    Tab,
    /// A carriage return in a word.
    CarriageReturn,
    /// Another byte that is no printable character of ASCII.
    OtherByte,
    /// A first word that begins with `#`.
    Comment,
    /// A name that is one but for its capital letters.
    Capital,
    /// A first word that no line begins with.
    UnknownName,
    /// The line ends where this part should stand.
    Missing(Part),
    /// A word behind the last part.
    OneWordMore,
    /// A number with a plus or a minus before it.
    Sign,
    /// A number of two digits or more that begins with 0.
    LeadingZero,
    /// A word that is no decimal number.
    NotANumber(Part),
    /// A number that is larger than one of its kind may be.
    TooLarge(Part),
    /// A byte of a content that is no hexadecimal digit.
    NotHexadecimal,
    /// A content of neither 2 digits nor those of a page.
    ContentLength,
    /// A word that is no knob, where one is set.
    UnknownKnob,
    /// A word that is neither a knob nor a counter, where one is shown.
    UnknownShown,
    /// A counter, where a knob is set.
    CounterSet,
}

/// What is wrong with a line.
#[derive(Clone, Copy)]
pub struct Trouble {
    /// The column of the first byte that is wrong, counted in bytes from 1; of a word that is missing, the one behind
    /// the line.
    pub column: usize,
    /// Why it is wrong.
    pub cause: Cause,
}

impl Trouble {
    /// This cause at this column.
    pub(crate) fn new(column: usize, cause: Cause) -> Trouble
        ensures { result ≡ at column cause }
    {
        Trouble { column, cause }
    }
}
