//! The rule of the turn's table, and what each step on it tells.
ghost use Rattle.turn.specs.Views.{CountedView};
ghost use Rattle.turn.specs.Rule.{IsKept, opening_view, Acquires, Releases, Event, quiet, none_taken, idle_step, moved_step, none_withdrawn, left_of, right_of, both_of, spent_view};

use crate::views::PassView;
use atomic_table::{Join, Play, Split, TableRule};
use std::marker::PhantomData;
use std::snapshot::Snapshot;

/// A memory whose calls are counted.
pub trait Watched: Drop {
    ghost seen: { Self → CountedView };
}

/// The rule. The key is the memory that the table was made with.
pub struct TurnRule;

impl<S: Watched> TableRule<S, PassView<S>, Snapshot<S>> for TurnRule {
    ghost holds = { λ key. IsKept S.seen key.value };

    ghost first = { λ key. opening_view S.seen key.value };
}

/// The lock is taken, where it is free.
pub struct Acquire;

impl<S: Watched> Play<S, PassView<S>> for Acquire {
    ghost then = { λ st me n w. Acquires S.seen me n w };
}

/// What a release counts: how the call before it ended.
pub trait Counting {
    ghost event: { Event };
}

/// A call whose answer is not counted.
pub struct Quiet;

impl Counting for Quiet {
    ghost event = { quiet };
}

/// A take that found no answer.
pub struct NoneTaken;

impl Counting for NoneTaken {
    ghost event = { none_taken };
}

/// A step that found nothing to be moved.
pub struct IdleStep;

impl Counting for IdleStep {
    ghost event = { idle_step };
}

/// A step that moved something.
pub struct MovedStep;

impl Counting for MovedStep {
    ghost event = { moved_step };
}

/// A withdrawal of what had no answer.
pub struct NoneWithdrawn;

impl Counting for NoneWithdrawn {
    ghost event = { none_withdrawn };
}

/// The lock is let go.
pub struct Release<C> {
    counting: PhantomData<C>,
}

impl<S: Watched, C: Counting> Play<S, PassView<S>> for Release<C> {
    ghost then = { λ st me n w. Releases S.seen C.event me w };
}

/// A new seat gets the own core of one.
pub struct SplitOwn;

impl<S> Split<PassView<S>> for SplitOwn {
    ghost left = { left_of };

    ghost right = { right_of };
}

/// One seat gets all that another has.
pub struct JoinAll;

impl<S> Join<PassView<S>> for JoinAll {
    ghost both = { both_of };

    ghost spent = { spent_view };
}
