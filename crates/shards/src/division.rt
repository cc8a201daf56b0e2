ghost use Rattle.std.specs.Prelude.{◌≡◌, ◌≤◌, ◌<◌, ◌^◌, ◌+◌, IfSome, IsTrue, length};
ghost use Rattle.commands.specs.Filters.{is_nothing};
ghost use Rattle.part_laws.specs.Divisions.{halves_of_lines, needs_whole};
ghost use Rattle.shards.specs.Chains.{filters_of};
ghost use Rattle.shards.specs.inner.Places.{after_one, counted, divide, divide_by_lines, gathered, gathers_next, IsWithin, skipped, squeezed, undivided};

use commands::FilterSpec;
use part_laws::{
    Addition, Manner, WholeCause, gather_together, keeps_newlines, makes_line_of_line, manner_of,
};
use planner::Node;

/// Where a pipeline is divided, by the places of its stages.
#[derive(Clone, Copy)]
pub(crate) struct Division {
    /// How many of the first stages run on each part, with the late one.
    pub(crate) front: usize,
    /// How many of the first stages do not run on the joined outputs, with the late one.
    pub(crate) before: usize,
    /// The one of the first stages that runs on the joined outputs alone, before all others, if there is one.
    pub(crate) late: Option<usize>,
    /// What runs last on each part, if it is no stage.
    pub(crate) last: Option<Addition>,
    /// What runs first on the joined outputs, if it is no stage.
    pub(crate) first: Option<Addition>,
}

/// Why nothing of these stages runs on a part, if that is so.
pub(crate) fn needs_whole(stages: &[Node]) -> Option<WholeCause>
    ensures { result ≡ needs_whole (filters_of stages.now) }
{
    let [stage, later @ ..] = stages else {
        return None;
    };
    let Node::Stage { spec, .. } = stage else {
        return needs_whole(later);
    };
    match manner_of(spec) {
        Manner::Whole(cause) => Some(cause),
        Manner::Skips if runs_nothing(later) => Some(WholeCause::FromStart),
        _ => None,
    }
}

// Whether nothing of stages after one that skips first lines runs on a part.
fn runs_nothing(stages: &[Node]) -> bool
    ensures { result ≡ is_nothing (halves_of_lines (filters_of stages.now)).each }
{
    let [stage, later @ ..] = stages else {
        return true;
    };
    let Node::Stage { spec, .. } = stage else {
        return runs_nothing(later);
    };
    !makes_line_of_line(spec) && !matches!(manner_of(spec), Manner::Counts(_))
}

/// Where these stages are divided. `at_lines` is whether the parts of their input end at ends of lines.
pub(crate) fn divide(stages: &[Node], at_lines: bool) -> Division
    requires { length stages.now < 2 ^ 63 }
    ensures value { result ≡ divide at_lines (filters_of stages.now) }
    ensures within { IsWithin result (length stages.now) }
{
    let [stage, later @ ..] = stages else {
        return undivided();
    };
    let Node::Stage { spec, .. } = stage else {
        return divide(later, at_lines);
    };
    let keeps = at_lines && keeps_newlines(spec);
    match manner_of(spec) {
        Manner::ByBytes => after_one(divide(later, keeps)),
        _ if !at_lines => undivided(),
        Manner::ByLines => after_one(divide(later, keeps)),
        Manner::Gathers => gathered(gathers_next(spec, later)),
        Manner::Counts(addition) => counted(addition),
        Manner::Squeezes(byte) => squeezed(byte),
        Manner::Skips => skipped(divide_by_lines(later)),
        Manner::Whole(_) => undivided(),
    }
}

// The same of stages after one that skips first lines, up to the first one that does not make a line of each line.
fn divide_by_lines(stages: &[Node]) -> Division
    requires { length stages.now < 2 ^ 63 }
    ensures value { result ≡ divide_by_lines (filters_of stages.now) }
    ensures within { IsWithin result (length stages.now) }
{
    let [stage, later @ ..] = stages else {
        return undivided();
    };
    let Node::Stage { spec, .. } = stage else {
        return divide_by_lines(later);
    };
    if makes_line_of_line(spec) {
        return after_one(divide_by_lines(later));
    }
    match manner_of(spec) {
        Manner::Counts(addition) => counted(addition),
        _ => undivided(),
    }
}

// Whether a filter gathers together with the first of these stages.
fn gathers_next(filter: &FilterSpec, stages: &[Node]) -> bool
    ensures value { result ≡ gathers_next filter.now (filters_of stages.now) }
    ensures some { IsTrue result → 1 ≤ length stages.now }
{
    let [stage, later @ ..] = stages else {
        return false;
    };
    match stage {
        Node::Stage { spec, .. } => gather_together(filter, spec),
        _ => gathers_next(filter, later),
    }
}

// None of the stages runs on each part.
fn undivided() -> Division
    ensures { result ≡ undivided }
{
    Division {
        front: 0,
        before: 0,
        late: None,
        last: None,
        first: None,
    }
}

// One stage more runs on each part, before these.
fn after_one(division: Division) -> Division
    requires front { division.front < 2 ^ 63 }
    requires before { division.before < 2 ^ 63 }
    requires late { IfSome division.late (λ place. place < 2 ^ 63) }
    ensures { result ≡ after_one division }
{
    Division {
        front: division.front + 1,
        before: division.before + 1,
        late: match division.late {
            Some(place) => Some(place + 1),
            None => None,
        },
        ..division
    }
}

// The first stage runs on each part, with the next one if that gathers together with it, and both once more on the joined outputs.
fn gathered(with_next: bool) -> Division
    ensures { result ≡ gathered with_next }
{
    Division {
        front: if with_next { 2 } else { 1 },
        ..undivided()
    }
}

// What the first stage counts is picked out on each part.
fn counted(addition: Addition) -> Division
    ensures { result ≡ counted addition }
{
    Division {
        last: Some(addition),
        ..undivided()
    }
}

// The first stage runs on each part, and runs of this byte are squeezed once more.
fn squeezed(byte: u8) -> Division
    ensures { result ≡ squeezed byte }
{
    Division {
        front: 1,
        before: 1,
        first: Some(Addition::Squeeze(byte)),
        ..undivided()
    }
}

// The first stage skips first lines, so it runs on the joined outputs alone. The stages after it are divided so.
fn skipped(division: Division) -> Division
    requires front { division.front < 2 ^ 63 }
    requires before { division.before < 2 ^ 63 }
    ensures { result ≡ skipped division }
{
    Division {
        front: division.front + 1,
        before: division.before + 1,
        late: Some(0),
        last: division.last,
        first: None,
    }
}
