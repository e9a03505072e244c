// The laws of certificates that fit, each carried by a function that does nothing.

ghost use Rattle.std.specs.Prelude.{◌≡◌, ◌↔◌};
ghost use Rattle.tv_formula.specs.Properties.{Property};
ghost use Rattle.tv_cert.specs.declared.node.Node.{Node};
ghost use Rattle.tv_cert.specs.declared.node.Verdict.{Verdict};
ghost use Rattle.tv_cert.specs.Obligations.{About};
ghost use Rattle.tv_cert.specs.Statements.{stated};
ghost use Rattle.tv_shape.specs.Stations.{stations, AreRight};
ghost use Rattle.tv_shape.specs.Fitting.{NodesFit, Fits, IsFirstFault};
ghost use Rattle.tv_shape.specs.declared.fault.ShapeFault.{ShapeFault};

/// Nothing is at fault at any node exactly where the nodes have the shape of the formula, narrow numbers and no more than their depth.
pub fn right_nodes_fit()
    ensures { (about : About) → (f : Property) → (root : Node) →
        AreRight about.system (stations 0 1 (stated about.tests f) root) ↔ NodesFit about f root }
{}

/// What fits has no fault.
pub fn faulty_is_unfit()
    ensures { (about : About) → (f : Property) → (root : Node) → (verdict : Verdict) → (x : ShapeFault) →
        IsFirstFault about f root verdict x → (¬ (Fits about f root verdict)) }
{}

/// There is one first fault at most.
pub fn one_first_fault()
    ensures { (about : About) → (f : Property) → (root : Node) → (verdict : Verdict) → (x y : ShapeFault) →
        IsFirstFault about f root verdict x → IsFirstFault about f root verdict y → x ≡ y }
{}
