//! Laws about clean texts.
ghost use Rattle.clean_texts.specs.CleanTexts.{AreBounded, AreUnchanged, StayClean};
ghost use Rattle.clean_texts.specs.JsonEscapes.{AreReadBack};

/// A text in which no character steers is not changed.
pub fn plain_texts_are_unchanged()
    ensures { AreUnchanged }
{}

/// A text that was cleaned is not changed again.
pub fn clean_texts_stay_clean()
    ensures { StayClean }
{}

/// A clean text has as many characters as the text that it was made from, and at most three times the bytes.
pub fn clean_texts_are_bounded()
    ensures { AreBounded }
{}

/// The escape of a character denotes this character.
pub fn escapes_are_read_back()
    ensures { AreReadBack }
{}
