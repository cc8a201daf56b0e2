// The line on which the thread of an input sends the results of its reads.
ghost use Rattle.std.specs.Prelude.{◌≡◌, if◌then◌else◌, IfOk, IfSome, IfNone};
ghost use Rattle.waiting_inputs.specs.inner.Line.{after, IsNext};

use crate::input::AHEAD;
use crate::reading::Reading;
use crossbeam_channel::protocol::{Lesson, Outcome, Protocol, Split};
use crossbeam_channel::{Pass, RuledReceiver, RuledSender, bounded_with};
use std::alloc::{AllocError, Global};
use std::collections::LinkedList;
use std::io::Read;
use std::marker::{Brand, Model, PhantomData};
use std::sync::Wait;

// The part of a pass of a line, and the bytes that are left after all that it has sent or received. No value of it is made.
pub(crate) enum Known {
    Fresh,
    Takes(Option<LinkedList<u8>>),
    Sends(Option<LinkedList<u8>>),
}

// The rule of a line.
pub(crate) struct InTurn;

impl Protocol<Reading, Known> for InTurn {
    ghost use Rattle.waiting_inputs.specs.inner.Line.{Ruled};
    ghost use Rattle.waiting_inputs.specs.declared.line.Known.TheVariants.{Fresh};

    ghost holds = { Ruled };

    ghost first = { Fresh };
}

// A read was sent, which gave the next bytes.
struct Sent;

impl Outcome<Reading, Known> for Sent {
    ghost use Rattle.waiting_inputs.specs.inner.Line.{after, known_left};
    ghost use Rattle.waiting_inputs.specs.declared.line.Known.TheVariants.{Sends};

    ghost then = { λ v x w. w ≡ Sends (after x (known_left v)) };
}

impl Lesson<Reading, Known> for Sent {
    ghost use Rattle.std.specs.Prelude.{⊤};

    ghost fact = { λ v items. ⊤ };
}

// A read was received, and it gave the next bytes.
struct Got;

impl Outcome<Reading, Known> for Got {
    ghost use Rattle.waiting_inputs.specs.inner.Line.{after, known_left, IsNext};
    ghost use Rattle.waiting_inputs.specs.declared.line.Known.TheVariants.{Takes};

    ghost then = { λ v x w. (w ≡ Takes (after x (known_left v))) × IsNext x (known_left v) };
}

impl Lesson<Reading, Known> for Got {
    ghost use Rattle.std.specs.Prelude.{⊤};

    ghost fact = { λ v items. ⊤ };
}

// The bytes that a file has left when its line begins.
pub(crate) trait Bytes {
    ghost use Rattle.waiting_inputs.specs.inner.Line.{Left};

    ghost bytes: { Left };
}

impl Bytes for Brand {
    ghost use Rattle.std.specs.Prelude.{None};

    ghost bytes = { None };
}

// The first pass becomes two, and each of them knows the bytes of the file.
struct Halves<B: Bytes> {
    of: PhantomData<B>,
}

impl<B: Bytes> Split<Known> for Halves<B> {
    ghost use Rattle.waiting_inputs.specs.declared.line.Known.TheVariants.{Takes, Sends};

    ghost left = { λ v. Takes B.bytes };

    ghost right = { λ v. Sends B.bytes };
}

// The end of a line that receives. Contracts see it as the bytes that are left after all that it has received.
#[derive(Drop)]
pub(crate) struct Taker {
    results: RuledReceiver<Reading, Known, InTurn>,
    pass: Pass<Reading, Known>,
}

impl Model for Taker {
    ghost use Rattle.crossbeam_channel.specs.Claims.{IsSeatAt};
    ghost use Rattle.crossbeam_channel.specs.Ends.{receives_on};
    ghost use Rattle.waiting_inputs.specs.inner.Line.{Left, pass_left, IsTaker};

    ghost Value = { Left };

    ghost view = { λ t. pass_left t.pass };

    ghost invariant = { λ t. IsSeatAt (receives_on t.results) t.pass × IsTaker t.pass };
}

impl Taker {
    // The next result, if one is there.
    pub(crate) fn take<R: Wait>(&mut self, rt: &R) -> Option<Reading>
        ensures next { IfSome result (λ r. IsNext r self.old × (self.new ≡ after r self.old)) }
        ensures none { IfNone result (self.new ≡ self.old) }
    {
        self.results.try_recv_as::<Got, R>(rt, &mut self.pass).ok()
    }
}

// The end of a line that sends. Contracts see it as the bytes that are left after all that it has sent.
#[derive(Drop)]
pub(crate) struct Feeder {
    to: RuledSender<Reading, Known, InTurn>,
    pass: Pass<Reading, Known>,
}

impl Model for Feeder {
    ghost use Rattle.crossbeam_channel.specs.Claims.{IsSeatAt};
    ghost use Rattle.crossbeam_channel.specs.Ends.{sends_on};
    ghost use Rattle.waiting_inputs.specs.inner.Line.{Left, pass_left, IsSender};

    ghost Value = { Left };

    ghost view = { λ f. pass_left f.pass };

    ghost invariant = { λ f. IsSeatAt (sends_on f.to) f.pass × IsSender f.pass };
}

impl Feeder {
    #[tactic(auto, using(crate::proofs::lemmas::Lines::follows_snoc))]
    // Sends the result of a read. False if nobody receives it.
    pub(crate) fn send<R: Wait>(&mut self, rt: &R, reading: Reading) -> bool
        requires { IsNext reading self.old }
        ensures { self.new ≡ (if result then after reading self.old else self.old) }
    {
        self.to
            .send_as::<Sent, R>(rt, &mut self.pass, reading)
            .is_ok()
    }
}

// A line with no result on it, for a file with these bytes.
pub(crate) fn ends<F: Read, B: Bytes>(
    alloc: Global,
    file: &F,
) -> Result<(Taker, Feeder), AllocError>
    requires { F.remaining file.now ≡ B.bytes }
    ensures { IfOk result (λ r. (r.0 ≡ F.remaining file.now) × (r.1 ≡ F.remaining file.now)) }
{
    let (to, results, mut taker) = bounded_with::<Reading, Known, InTurn, Global>(alloc, AHEAD)?;
    let feeder = to.another::<Halves<B>>(&mut taker);
    Ok((
        Taker {
            results,
            pass: taker,
        },
        Feeder { to, pass: feeder },
    ))
}
