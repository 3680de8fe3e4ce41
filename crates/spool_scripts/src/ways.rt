//! The ways to serve a script.

use crate::paced::Pace;

/// How a script is read and its replies are written.
#[derive(Clone, Copy)]
pub struct Way {
    /// The text that names this way in the report of a difference.
    pub name: &'static str,
    pub reading: Pace,
    pub writing: Pace,
}

impl Way {
    fn new(name: &'static str, reading: Pace, writing: Pace) -> Way {
        Way {
            name,
            reading,
            writing,
        }
    }
}

/// Returns the ways to serve a script. The pieces of 4,099 bytes are longer than the longest line.
pub fn ways() -> [Way; 7] {
    [
        Way::new("at once", Pace::WHOLE, Pace::WHOLE),
        Way::new("read byte by byte", Pace::pieces(1), Pace::WHOLE),
        Way::new("read in pieces of 7 bytes", Pace::pieces(7), Pace::WHOLE),
        Way::new(
            "read in pieces of 4099 bytes",
            Pace::pieces(4_099),
            Pace::WHOLE,
        ),
        Way::new("with interrupted reads", Pace::interrupted(5), Pace::WHOLE),
        Way::new("written in pieces of 3 bytes", Pace::WHOLE, Pace::pieces(3)),
        Way::new(
            "with interrupted writes",
            Pace::WHOLE,
            Pace::interrupted(11),
        ),
    ]
}
