//! What a scan's answers mean, over every ancestry.
//!
//! Each law is a call without a body, whose contract is the law.
ghost use Rattle.dkg_artifact.specs.Ancestries.{AreApart};

use dkg_ceremony::Ceremony;
use dkg_infos::Directory;

/// Each answer excludes the others: a block that leads on is answered by `Need` alone, and one that completes an ancestry by logs alone.
pub fn answers_are_apart<C: Ceremony, Dir: Directory>()
    ensures { AreApart Dir C.check_log_of }
{}
