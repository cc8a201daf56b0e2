// The line on which the answer to one piece comes back.
ghost use Rattle.std.specs.Prelude.{◌≡◌, IfOk, IfSome};
ghost use Rattle.collector.specs.Files.{batch_bytes};
ghost use Rattle.waiting_outputs.specs.inner.Writes.{IsAnswer, Owed};

use crate::done::Done;
use collector::Batch;
use crossbeam_channel::protocol::{Lesson, Outcome, Protocol, Split};
use crossbeam_channel::{Pass, RuledReceiver, RuledSender, bounded_with};
use std::alloc::{AllocError, Global};
use std::collections::LinkedList;
use std::io::Write;
use std::marker::{Brand, Model, PhantomData};
use std::sync::Wait;

// The part of a pass: what the file held before the piece, where that is known, and the piece. No value of it is made.
pub(crate) enum Known {
    Fresh,
    Takes(Option<LinkedList<u8>>, LinkedList<u8>),
    Sends(Option<LinkedList<u8>>, LinkedList<u8>),
    Spent,
}

// The rule of a line: one answer, and it is the one to the piece.
pub(crate) struct OneAnswer<F> {
    of: PhantomData<F>,
}

impl<F: Write> Protocol<Done<F>, Known> for OneAnswer<F> {
    ghost use Rattle.waiting_outputs.specs.inner.Line.{Ruled};
    ghost use Rattle.waiting_outputs.specs.declared.line.Known.TheVariants.{Fresh};

    ghost holds = { Ruled F.contents };

    ghost first = { Fresh };
}

// The answer was sent.
struct Sent;

impl<F> Outcome<Done<F>, Known> for Sent {
    ghost use Rattle.waiting_outputs.specs.declared.line.Known.TheVariants.{Spent};

    ghost then = { λ v x w. w ≡ Spent };
}

impl<F> Lesson<Done<F>, Known> for Sent {
    ghost use Rattle.std.specs.Prelude.{⊤};

    ghost fact = { λ v items. ⊤ };
}

// The answer was received, and it is the one to the piece.
struct Got<F> {
    of: PhantomData<F>,
}

impl<F: Write + Drop> Outcome<Done<F>, Known> for Got<F> {
    ghost use Rattle.waiting_outputs.specs.inner.Line.{owed};
    ghost use Rattle.waiting_outputs.specs.declared.line.Known.TheVariants.{Spent};

    ghost then = { λ v x w. (w ≡ Spent) × IsAnswer F.contents x (owed v) };
}

impl<F: Write + Drop> Lesson<Done<F>, Known> for Got<F> {
    ghost use Rattle.std.specs.Prelude.{⊤};

    ghost fact = { λ v items. ⊤ };
}

// What is owed on a line.
pub(crate) trait Debt {
    ghost debt: { Owed };
}

impl Debt for Brand {
    ghost use Rattle.std.specs.Prelude.{None, []};

    ghost debt = { record { before = None; bytes = [] } };
}

// The first pass becomes two, and both know what is owed.
struct Halves<B: Debt> {
    of: PhantomData<B>,
}

impl<B: Debt> Split<Known> for Halves<B> {
    ghost use Rattle.waiting_outputs.specs.declared.line.Known.TheVariants.{Takes, Sends};

    ghost left = { λ v. Takes B.debt.before B.debt.bytes };

    ghost right = { λ v. Sends B.debt.before B.debt.bytes };
}

// The answer that is owed to the caller. Contracts see it as what was handed over: what the file held, if that is known, and the piece.
#[derive(Drop)]
pub(crate) struct Owing<F: Write + Drop> {
    from: RuledReceiver<Done<F>, Known, OneAnswer<F>>,
    pass: Pass<Done<F>, Known>,
}

impl<F: Write + Drop> Model for Owing<F> {
    ghost use Rattle.crossbeam_channel.specs.Claims.{IsSeatAt};
    ghost use Rattle.crossbeam_channel.specs.Ends.{receives_on};
    ghost use Rattle.waiting_outputs.specs.inner.Writes.{Owed};
    ghost use Rattle.waiting_outputs.specs.inner.Line.{pass_owed, IsTaker};

    ghost Value = { Owed };

    ghost view = { λ o. pass_owed o.pass };

    ghost invariant = { λ o. IsSeatAt (receives_on o.from) o.pass × IsTaker o.pass };
}

impl<F: Write + Drop> Owing<F> {
    // Waits for the answer. None if nobody can give it.
    pub(crate) fn wait<R: Wait>(self, rt: &R) -> Option<Done<F>>
        ensures answer { IfSome result (λ done. IsAnswer F.contents done self) }
    {
        let Owing { from, mut pass } = self;
        from.recv_as::<Got<F>, R>(rt, &mut pass).ok()
    }
}

// The end of a line that gives the answer. Contracts see it as what is owed.
#[derive(Drop)]
pub(crate) struct Debtor<F: Write + Drop> {
    to: RuledSender<Done<F>, Known, OneAnswer<F>>,
    pass: Pass<Done<F>, Known>,
}

impl<F: Write + Drop> Model for Debtor<F> {
    ghost use Rattle.crossbeam_channel.specs.Claims.{IsSeatAt};
    ghost use Rattle.crossbeam_channel.specs.Ends.{sends_on};
    ghost use Rattle.waiting_outputs.specs.inner.Writes.{Owed};
    ghost use Rattle.waiting_outputs.specs.inner.Line.{pass_owed, IsSender};

    ghost Value = { Owed };

    ghost view = { λ d. pass_owed d.pass };

    ghost invariant = { λ d. IsSeatAt (sends_on d.to) d.pass × IsSender d.pass };
}

impl<F: Write + Drop> Debtor<F> {
    // Gives the answer. False if nobody takes it.
    pub(crate) fn give<R: Wait>(self, rt: &R, done: Done<F>) -> bool
        requires { IsAnswer F.contents done self }
    {
        let Debtor { to, mut pass } = self;
        to.send_as::<Sent, R>(rt, &mut pass, done).is_ok()
    }
}

// A line with no answer on it, for this file and this batch.
pub(crate) fn ends<F: Write + Drop, B: Debt>(
    alloc: Global,
    file: &F,
    batch: &Batch,
) -> Result<(Owing<F>, Debtor<F>), AllocError>
    requires before { F.contents file.now ≡ B.debt.before }
    requires bytes { batch_bytes batch.now ≡ B.debt.bytes }
    ensures { IfOk result
        (λ r. (r.0 ≡ record { before = F.contents file.now; bytes = batch_bytes batch.now })
        × (r.1 ≡ record { before = F.contents file.now; bytes = batch_bytes batch.now })) }
{
    let (to, from, mut taker) = bounded_with::<Done<F>, Known, OneAnswer<F>, Global>(alloc, 1)?;
    let sender = to.another::<Halves<B>>(&mut taker);
    Ok((Owing { from, pass: taker }, Debtor { to, pass: sender }))
}
