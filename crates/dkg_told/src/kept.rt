//! A source that keeps what it is given back, so that a person can be told which line of it it was.
ghost use Rattle.std.specs.Prelude.{◌≡◌, ◌≤◌, IfOk, IsTrue, None, OnErr, OnOk, Some, length, option_map};
ghost use Rattle.dkg_journal.specs.Disk.{Rose};
ghost use Rattle.dkg_outside.specs.Outside.{TookPiece};
ghost use Rattle.std.specs.Option.{option_copied};

use dkg_outside::{Failed, Source};

/// A source, and the bytes that it was given back.
#[derive(Drop)]
pub struct KeptSource<S> {
    source: S,
    kept: Option<Vec<u8>>,
}

impl<S: Source> KeptSource<S> {
    /// A source behind which nothing was given back yet.
    pub fn new(source: S) -> KeptSource<S>
        ensures source { result.source ≡ source }
        ensures kept { result.kept ≡ None }
    {
        KeptSource { source, kept: None }
    }

    /// What was given back, if anything was.
    pub fn kept(&self) -> Option<&[u8]>
        ensures { option_copied result ≡ option_map (λ text. text.items) self.now.kept }
    {
        match &self.kept {
            Some(text) => Some(text.as_slice()),
            None => None,
        }
    }
}

impl<S: Source> Source for KeptSource<S> {
    ghost tells = { S.tells };

    ghost left = { λ s. S.left s.source };

    ghost faults = { λ s. S.faults s.source };

    /// It keeps them as they are.
    ghost has_back = { λ s bytes. option_map (λ text. text.items) s.kept ≡ Some bytes };

    fn read(&mut self, into: &mut [u8]) -> Result<usize, Failed>
        ensures within { IfOk result (λ n. n ≤ length into.new) }
        ensures gives { IfOk result (λ n. IsTrue S.tells → TookPiece n into.new (S.left self.old.source) (S.left self.new.source)) }
        ensures lost { OnErr result (S.left self.new.source ≡ S.left self.old.source) }
        ensures later { S.faults self.old.source ≤ S.faults self.new.source }
        ensures went { OnOk result (S.faults self.new.source ≡ S.faults self.old.source) }
        ensures failed { OnErr result (Rose (S.faults self.old.source) (S.faults self.new.source)) }
        // What was given back is kept.
        ensures keeps { self.new.kept ≡ self.old.kept }
    {
        self.source.read(into)
    }

    fn give_back(&mut self, text: Vec<u8>)
        ensures { self.new ≡ record self.old { kept = Some text } }
    {
        self.kept = Some(text);
    }
}
