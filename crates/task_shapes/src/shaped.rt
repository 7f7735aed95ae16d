// A task set with its code and its shapes.
use crate::input::Input;
use crpd_base::{Items, TaskSet};
use flat_graph::Graph;
use loop_regions::Nest;
use std::alloc::{AllocError, Global};
use std::marker::Model;

// The parts of a shaped set.
#[derive(Drop)]
struct Shapes {
    input: Input,
    graphs: Items<Graph>,
    nests: Items<Nest>,
}

/// A task set with its code and its shapes: the flat graph of each task, and the regions of each
/// task's loops in it, by priority.
#[derive(Drop)]
pub struct ShapedSet {
    // In a box, so that a function that owns the set drops one pointer at each of its exits.
    shapes: Box<Shapes>,
}

impl Model for ShapedSet {
    ghost use Rattle.task_shapes.specs.Shapes.{IsShapedSet, SetWithShapes};

    ghost Value = { SetWithShapes };

    ghost view = { λ s. let parts = s.shapes.value in
        record { input = parts.input; graphs = parts.graphs; nests = parts.nests } };

    ghost invariant = { λ s. let parts = s.shapes.value in
        IsShapedSet (record { input = parts.input; graphs = parts.graphs; nests = parts.nests }) };
}

impl ShapedSet {
    ghost use Rattle.std.specs.Prelude.{◌≡◌, IfOk};
    ghost use Rattle.crpd_base.specs.Ranges.{IsTaskSet};
    ghost use Rattle.task_shapes.specs.Shapes.{IsShapedSet};

    /// A set with these graphs and regions, in a box that is allocated. The only error is running
    /// out of memory; then all three are dropped. In constant time.
    pub(crate) fn new(
        alloc: Global,
        input: Input,
        graphs: Items<Graph>,
        nests: Items<Nest>,
    ) -> Result<Self, AllocError>
        requires { IsShapedSet (record { input = input; graphs = graphs; nests = nests }) }
        ensures { IfOk result (λ set.
            set ≡ record { input = input; graphs = graphs; nests = nests }) }
    {
        let parts = Shapes {
            input,
            graphs,
            nests,
        };
        let shapes = Box::new(alloc, parts)?;
        Ok(ShapedSet { shapes })
    }

    /// The set with its code. In constant time.
    pub fn input(&self) -> &Input
        ensures { result.now ≡ self.now.input }
    {
        &self.shapes.input
    }

    /// The set. In constant time.
    pub fn set(&self) -> &TaskSet
        ensures is { result.now ≡ self.now.input.set }
        ensures ranges { IsTaskSet result.now }
    {
        self.shapes.input.set()
    }

    /// The flat graph of each task, by priority. In constant time.
    pub fn graphs(&self) -> &[Graph]
        ensures { result.now ≡ self.now.graphs }
    {
        self.shapes.graphs.as_slice()
    }

    /// The regions of each task's loops, by priority. In constant time.
    pub fn nests(&self) -> &[Nest]
        ensures { result.now ≡ self.now.nests }
    {
        self.shapes.nests.as_slice()
    }

    /// A law: each shaped set satisfies `IsShapedSet`. In constant time.
    pub fn shaped_law(&self)
        ensures { IsShapedSet self.now }
    {
        let _graphs = &self.shapes.graphs;
    }
}
