// The clauses of a certificate, and the checker's verdict.
ghost use Rattle.std.specs.Prelude.{◌≡◌};
ghost use Rattle.cert_check.specs.Verdict.{clause_number, clause_place};

use crpd_base::Task;

/// Whether every clause holds for every task, or the first one that does not, by its task, its
/// number and its place.
#[derive(Clone, Copy)]
pub enum Verdict {
    /// Every clause holds for every task.
    Yes,
    /// The first task, by priority, for which a clause does not hold; the first such clause, 1 to
    /// 9; and the first such place in it, from 0. In clauses 3 to 6 the place is a node's number;
    /// the other clauses define their own.
    No { task: Task, clause: u8, place: u32 },
}

/// A clause of a certificate, in the order in which they are checked for a task. Those of nodes
/// have the node's number.
#[derive(Clone, Copy)]
pub enum Clause {
    /// The platforms are equal.
    Platforms,
    /// The certificate has the task.
    HasTask,
    /// The names are equal.
    Names,
    /// The certificate has no task after the set's last one.
    Last,
    /// The listed numbers are nodes, and every leader is listed.
    Leaders,
    /// There is a potential for each node.
    NodePotentials,
    /// There is a potential for each region.
    LoopPotentials,
    /// The first node's state is empty. A successor's state has nothing that the state after the
    /// node lacks.
    States(u32),
    /// The node's useful set has its own set if it is counted as a hit, and every other set that is
    /// useful at a successor.
    UsefulSets(u32),
    /// The task's sets include those of the node.
    TaskSets(u32),
    /// The potentials cover the node's edges, the regions that these leave, and the iterations of
    /// the region that it heads.
    Inequalities(u32),
    /// The bound is at least the potential of the first node's item.
    Bound,
    /// The window has room for the demand.
    Window,
    /// The response is the window plus the jitter.
    Response,
    /// The response is at most the deadline.
    Deadline,
}

impl Clause {
    /// The clause's number, 1 to 9. In constant time.
    pub fn number(self) -> u8
        ensures { result ≡ clause_number self }
    {
        match self {
            Clause::Platforms | Clause::HasTask | Clause::Names | Clause::Last => 1,
            Clause::Leaders | Clause::NodePotentials | Clause::LoopPotentials => 2,
            Clause::States(_) => 3,
            Clause::UsefulSets(_) => 4,
            Clause::TaskSets(_) => 5,
            Clause::Inequalities(_) => 6,
            Clause::Bound => 7,
            Clause::Window => 8,
            Clause::Response | Clause::Deadline => 9,
        }
    }

    /// The clause's place among those of its number: the node's number if it is of a node. In
    /// constant time.
    pub fn place(self) -> u32
        ensures { result ≡ clause_place self }
    {
        match self {
            Clause::HasTask | Clause::NodePotentials | Clause::Deadline => 1,
            Clause::Names | Clause::LoopPotentials => 2,
            Clause::Last => 3,
            Clause::States(node)
            | Clause::UsefulSets(node)
            | Clause::TaskSets(node)
            | Clause::Inequalities(node) => node,
            _ => 0,
        }
    }
}
