//! What the text of scripts means, over every script and every text.
//!
//! Each law is a call without a body, whose contract is the law.
ghost use Rattle.dkg_reading.specs.Laws.{IsPlaceFound, IsReadAgain, IsWrittenAgain};

/// What is written is read again as the script that it was written from.
pub fn written_is_read()
    ensures { IsReadAgain }
{}

/// What was read is written again as the text that it was read from.
pub fn read_is_written()
    ensures { IsWrittenAgain }
{}

/// Some script's text begins with the lines before the place of a text that is no script's, and none's goes on with the line there.
pub fn place_is_first()
    ensures { IsPlaceFound }
{}
