ghost use Rattle.std.specs.Prelude.{◌≡◌, ◌<◌, ◌↔◌, length, IfOk, IsTrue};
ghost use Rattle.std.specs.List.{All};
ghost use Rattle.graphs.specs.Graph.{IsForest};
ghost use Rattle.planner.specs.Planned.{graph_of};

use command_words::Sequence;
use commands::FilterSpec;
use graphs::is_forest;
use machine::NoMemory;
use run_types::{InName, OutName};
use std::alloc::Global;
use std::marker::Model;

/// A node of a plan, with its pipes by number.
#[derive(Drop)]
pub enum Node {
    /// The source of an input that no stage writes: the file of this name, or nothing.
    Source(Option<InName>),
    /// A stage: its number, from 1; what it does; its pipes by input; and its pipes by branch, None
    /// if nobody reads the branch.
    Stage {
        number: usize,
        spec: FilterSpec,
        inputs: Sequence<usize>,
        branches: Sequence<Option<usize>>,
    },
    /// The sink of a branch that goes to the file of this name.
    Sink(OutName),
}

/// An input that is opened: the number of its stage, from 1; whether it is an operand; and the node
/// that reads it, None if nothing does.
#[derive(Drop)]
pub struct InOpening {
    pub stage: usize,
    pub name: InName,
    pub operand: bool,
    pub node: Option<usize>,
}

/// An output that is opened: the number of its stage, from 1; and the node that writes it, None if
/// nothing does.
#[derive(Drop)]
pub struct OutOpening {
    pub stage: usize,
    pub name: OutName,
    pub node: Option<usize>,
}

// A node, by what it is: the source of an input of a stage, a stage, or the sink of a branch; stages by index.
#[derive(Clone, Copy, PartialEq, Eq)]
pub(crate) enum NodeName {
    SourceOf(usize, usize),
    StageAt(usize),
    SinkOf(usize, usize),
}

// A pipe, by its writer and the branch (of a source 0), and by its reader and the input (of a sink 0).
#[derive(Clone, Copy)]
pub(crate) struct Pipe {
    pub(crate) writer: NodeName,
    pub(crate) branch: usize,
    pub(crate) reader: NodeName,
    pub(crate) input: usize,
}

/// The checked graph of a script. Contracts see the lists of its parts.
#[derive(Drop)]
pub struct Plan {
    nodes: Vec<Node>,
    pipes: Vec<(usize, usize)>,
    inputs: Vec<InOpening>,
    outputs: Vec<OutOpening>,
    result: (usize, bool),
    forest: bool,
}

impl Model for Plan {
    ghost use Rattle.std.specs.Prelude.{◌≡◌, ◌<◌, ◌↔◌, length, IsTrue};
    ghost use Rattle.std.specs.List.{All};
    ghost use Rattle.graphs.specs.Graph.{Graph, IsForest};
    ghost use Rattle.planner.specs.Planned as planned;

    ghost Value = { planned.Planned };

    ghost view = { λ p. record {
      nodes = p.nodes.items;
      pipes = p.pipes.items;
      inputs = p.inputs.items;
      outputs = p.outputs.items;
      result = p.result;
    } };

    ghost invariant = { λ p. All (λ e. (e.0 < e.1) × (e.1 < length p.nodes.items)) p.pipes.items
        × ((g : Graph) → length g.nodes ≡ length p.nodes.items → g.pipes ≡ p.pipes.items → (IsTrue p.forest ↔ IsForest g)) };
}

impl Plan {
    // The plan of these parts.
    pub(crate) fn new(
        alloc: Global,
        nodes: Vec<Node>,
        pipes: Vec<(usize, usize)>,
        inputs: Vec<InOpening>,
        outputs: Vec<OutOpening>,
        outcome: (usize, bool),
    ) -> Result<Plan, NoMemory>
        requires { All (λ e. (e.0 < e.1) × (e.1 < length nodes.items)) pipes.items }
        ensures { IfOk result
            (λ p. p ≡
            record {
              nodes = nodes.items;
              pipes = pipes.items;
              inputs = inputs.items;
              outputs =
                  outputs.items;
              result = outcome;
            }) }
    {
        let forest = is_forest(alloc, nodes.len(), pipes.as_slice())?;
        Ok(Plan {
            nodes,
            pipes,
            inputs,
            outputs,
            result: outcome,
            forest,
        })
    }

    /// The nodes in planned order.
    pub fn order(&self) -> &[Node]
        ensures { result.now ≡ self.now.nodes }
    {
        self.nodes.as_slice()
    }

    /// The writer and the reader of each pipe, by number: it leads from a node to a later one.
    pub fn pipes(&self) -> &[(usize, usize)]
        ensures value { result.now ≡ self.now.pipes }
        ensures forward { All (λ e. (e.0 < e.1) × (e.1 < length self.now.nodes)) self.now.pipes }
    {
        self.pipes.as_slice()
    }

    /// The inputs that are opened, in order.
    pub fn inputs(&self) -> &[InOpening]
        ensures { result.now ≡ self.now.inputs }
    {
        self.inputs.as_slice()
    }

    /// The outputs that are opened after the inputs, in order.
    pub fn outputs(&self) -> &[OutOpening]
        ensures { result.now ≡ self.now.outputs }
    {
        self.outputs.as_slice()
    }

    /// The node whose exit status is the run's, and whether `!` comes before its pipeline.
    pub fn result(&self) -> (usize, bool)
        ensures { result ≡ self.now.result }
    {
        self.result
    }

    /// Whether the nodes can be ordered so that each has at most one pipe to later ones.
    pub fn is_forest(&self) -> bool
        ensures { IsTrue result ↔ IsForest (graph_of self.now) }
    {
        self.forest
    }
}
