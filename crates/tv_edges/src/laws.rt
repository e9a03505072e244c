// The law of the cases of an edge, carried by a function that does nothing.

ghost use Rattle.std.specs.Prelude.{◌≡◌, ℕ, List, length};
ghost use Rattle.tv_program.specs.Systems.{System, IsLimited};
ghost use Rattle.tv_cases.specs.LinearCases.{LinearCase};
ghost use Rattle.tv_edges.specs.Edges.{IsOfEdge, CaseGives};

/// Execution of an edge gives the values of the updates of each of its cases, where the guards of the case are met.
pub fn cases_give()
    ensures { (p : System) → IsLimited p → (cases : List LinearCase) → (k number : ℕ) → (of : IsOfEdge p cases k number) →
        CaseGives (length p.variables) of.edge of.case }
{}
