//! What the bytes of messages mean, over all bytes and all messages.
//!
//! Each law is a call without a body, whose contract is the law.
ghost use Rattle.dkg_probe.specs.WireLaws.{AreReadAgain, AreReplies, AreRequests};

use dkg_infos::Directory;

/// Some bytes are read as a request exactly where they spell it.
pub fn requests_are_as_spelled()
    ensures { AreRequests }
{}

/// Some bytes are read as a response exactly where they spell it.
pub fn responses_are_as_spelled()
    ensures { AreReplies }
{}

/// What was written is read again as what it asks, and as what it answers.
pub fn written_is_read<Dir: Directory>()
    ensures { AreReadAgain Dir.Cfg Dir.spelling }
{}
