//! Counted steps, at no cost.
ghost use Rattle.std.specs.Prelude.{◌≡◌, ◌+◌, ◌<◌};

use std::marker::Model;
use std::sync::ledger::{Blank, Book, Ledger, Share};

/// How many steps were taken. It takes no bytes, and only `tick` and `step` change it.
#[derive(Drop)]
pub struct Steps<M: Ledger> {
    book: Book<M>,
    share: Share<M>,
}

/// A step that was taken. What is counted takes one, so that none counts for two.
#[derive(Drop)]
pub(crate) struct Step(());

impl<M: Ledger> Model for Steps<M> {
    ghost use Rattle.std.specs.Prelude.{ℕ, ◌<◌};

    ghost Value = { ℕ };

    ghost view = { λ steps. steps.book.total };

    ghost invariant = { λ steps. 0 < steps.share.parts };
}

impl<M: Ledger> Steps<M> {
    /// No step yet.
    pub fn new(blank: Blank) -> Steps<M>
        requires name { blank.name ≡ M.name }
        requires parts { blank.parts ≡ M.parts }
        requires some { 0 < blank.parts }
        ensures { result ≡ 0 }
    {
        let (book, share) = blank.open::<M>();
        Steps { book, share }
    }

    /// Takes a step.
    pub fn tick(&mut self)
        ensures { self.new ≡ self.old + 1 }
    {
        self.book.add(&mut self.share, 1);
    }

    /// Takes a step, and hands it out.
    pub(crate) fn step(&mut self) -> Step
        ensures { self.new ≡ self.old + 1 }
    {
        self.book.add(&mut self.share, 1);
        Step(())
    }
}
