// What a rule asks on the edges, the calls and the returns of an instruction's control flow.
#![tactic(auto)]

ghost use Rattle.std.specs.Prelude.{◌≡◌, ℕ, Bool};
ghost use Rattle.base.specs.Formula.{Formula, decide};
ghost use Rattle.safety.specs.Rules as rules;
ghost use Rattle.safety.specs.Rules.{edges, calls, ends, plain_edge};
ghost use Rattle.flows.specs.Edges.{edge_of};

use base::RomAddr;
use certificate::Flow;

// The conditions that never and that always hold.
const NEVER: u8 = 0;

const ALWAYS: u8 = 8;

// An edge of the control flow: its condition, whether it is the one on which the condition holds, and where it goes.
#[derive(Clone, Copy)]
pub struct Edge {
    pub condition: u8,
    pub outcome: bool,
    pub to: RomAddr,
}

impl Edge {
    // The edge that is always taken.
    pub fn plain(to: RomAddr) -> Edge
        ensures { edge_of result ≡ plain_edge to.0 }
    {
        Edge {
            condition: ALWAYS,
            outcome: true,
            to,
        }
    }
}

// A test of each edge: behind the instruction unless the condition always holds, to the jump's target unless it never does.
pub fn on_edges<F: Fn(Edge) -> bool>(flow: Flow, next: RomAddr, holds: F) -> bool
    requires { F.IsAlwaysCallable holds }
    ensures { (p : rules.Edge → Formula) → ((e : _) (r : Bool) → F.post holds e r → r ≡ decide (p (edge_of e)))
        → result ≡ decide (edges flow next.0 p) }
{
    match flow {
        Flow::Step(condition, to) => {
            let behind = condition == ALWAYS
                || holds(Edge {
                    condition,
                    outcome: false,
                    to: next,
                });
            behind
                && (condition == NEVER
                    || holds(Edge {
                        condition,
                        outcome: true,
                        to,
                    }))
        }
        Flow::Call(_) | Flow::Return | Flow::InterruptReturn | Flow::Forbidden => true,
    }
}

// A test of a CALL's target.
pub fn on_calls<F: Fn(RomAddr) -> bool>(flow: Flow, holds: F) -> bool
    requires { F.IsAlwaysCallable holds }
    ensures { (p : ℕ → Formula) → ((t : _) (r : Bool) → F.post holds t r → r ≡ decide (p t.0)) → result ≡ decide (calls flow p) }
{
    match flow {
        Flow::Call(to) => holds(to),
        Flow::Step(_, _) | Flow::Return | Flow::InterruptReturn | Flow::Forbidden => true,
    }
}

// A test of returns.
pub fn on_ends<F: Fn() -> bool>(flow: Flow, holds: F) -> bool
    requires { F.IsAlwaysCallable holds }
    ensures { (p : Formula) → ((r : Bool) → F.post holds r → r ≡ decide p) → result ≡ decide (ends flow p) }
{
    match flow {
        Flow::Return | Flow::InterruptReturn => holds(),
        Flow::Step(_, _) | Flow::Call(_) | Flow::Forbidden => true,
    }
}
