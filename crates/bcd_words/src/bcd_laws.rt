//! Laws of numbers in binary-coded decimal. Each is the contract of a function that does nothing.
ghost use Rattle.bcd_words.specs.BcdLaws.{ReadsBack, WritesBack, WritesNoOther};

/// The pattern that is written for a number reads as the number.
pub fn reads_back()
    ensures { ReadsBack }
{}

/// What is read from a pattern with a sign digit 0 or 15, minus zero apart, is written as the pattern.
pub fn writes_back()
    ensures { WritesBack }
{}

/// What is written for a number has a sign digit 0 or 15, and is not minus zero.
pub fn writes_no_other()
    ensures { WritesNoOther }
{}
