//! What is plain to see of a line: that it is empty, ends in a carriage return, or has a space too many.
ghost use Rattle.std.specs.Prelude.{◌≡◌, ◌-◌};
ghost use Rattle.dkg_words.specs.Notes.{has_loose_space as has_loose_space_of, is_returned as is_returned_of, note as note_of};

/// Whether a space stands at a line's begin or end, or behind another.
fn has_loose_space(line: &[u8]) -> bool
    ensures { result ≡ has_loose_space_of line.now }
{
    let mut was = true;
    for byte in line {
        let is = *byte == b' ';
        if was && is {
            return true;
        }
        was = is;
    }
    was
}

/// Whether a line ends in a carriage return.
fn is_returned(line: &[u8]) -> bool
    ensures { result ≡ is_returned_of line.now }
{
    match line.last() {
        Some(byte) => *byte == 13,
        None => false,
    }
}

/// What is said of a line in brackets; nothing, where nothing is plain to see.
pub(crate) fn note(line: &[u8]) -> &'static [u8]
    ensures { result.now ≡ note_of line.now }
{
    if line.is_empty() {
        return b" (the line is empty)";
    }
    if is_returned(line) {
        return b" (the line ends in a carriage return)";
    }
    if has_loose_space(line) {
        return b" (fields are parted by one space)";
    }
    b""
}
