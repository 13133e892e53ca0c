//! What each step on the table tells the pass that makes it.
use crate::turn::Turn;
use crate::view::{Node, View};
use atomic_table::{Join, Play, Split};
use std::marker::PhantomData;

/// A look at the ticket word.
pub(crate) struct Look;

impl<T, C, R> Play<Option<Node<T, C, R>>, View<T, C, R>> for Look {
    ghost use Rattle.dkg_turn.specs.Rules.{looked};

    ghost then = { looked };
}

/// A try to draw a ticket.
pub(crate) struct Draw;

impl<T, C, R> Play<Option<Node<T, C, R>>, View<T, C, R>> for Draw {
    ghost use Rattle.dkg_turn.specs.Rules.{drew_one};

    ghost then = { drew_one };
}

/// A look at the serving word.
pub(crate) struct Come<T> {
    of: PhantomData<T>,
}

impl<T: Turn> Play<Option<Node<T, T::Call, T::Reply>>, View<T, T::Call, T::Reply>> for Come<T> {
    ghost use Rattle.dkg_turn.specs.Rules.{came};

    ghost then = { came T.turns };
}

/// The turn is passed on.
pub(crate) struct PassOn;

impl<T, C, R> Play<Option<Node<T, C, R>>, View<T, C, R>> for PassOn {
    ghost use Rattle.dkg_turn.specs.Rules.{passed_on};

    ghost then = { passed_on };
}

/// The same, and the pass gets one more number, which is its ticket plus one.
pub(crate) struct Named;

impl<T, C, R> Play<Option<Node<T, C, R>>, View<T, C, R>> for Named {
    ghost use Rattle.dkg_turn.specs.Rules.{passed_named};

    ghost then = { passed_named };
}

/// A pass is cut in two, or two are made one.
pub(crate) struct Halves;

impl<T, C, R> Split<View<T, C, R>> for Halves {
    ghost use Rattle.dkg_turn.specs.Rules.{head_of, tail_of, kept_part, given_part};

    ghost left = { λ v. kept_part (tail_of v.numbers) v };

    ghost right = { λ v. given_part (head_of v.numbers) v };
}

impl<T, C, R> Join<View<T, C, R>> for Halves {
    ghost use Rattle.dkg_turn.specs.Rules.{both_views, nobody};

    ghost both = { both_views };

    ghost spent = { nobody };
}

/// A look after a join, at the ticket word. Joining changes views and looks at nothing, so this tells the pass what the rule knows of the
/// joined view: what both had seen begins what it has seen, and all tickets were drawn where one of the two was told so.
pub(crate) struct Settle;

impl<T, C, R> Play<Option<Node<T, C, R>>, View<T, C, R>> for Settle {
    ghost use Rattle.dkg_turn.specs.Rules.{settled_join};

    ghost then = { settled_join };
}
