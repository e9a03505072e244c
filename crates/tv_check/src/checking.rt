ghost use Rattle.std.specs.Prelude.{◌≡◌, ◌+◌, ◌++◌, ◌∷◌, [], ◌<◌, ◌^◌, length};
ghost use Rattle.tv_cases.specs.Systems.{cases_of};
ghost use Rattle.tv_cert.specs.declared.node.Verdict.TheVariants.{Proved, Disproved};
ghost use Rattle.tv_cert.specs.Pieces.{AreOver};
ghost use Rattle.tv_cert.specs.Nodes.{size, pieces_of, root_entry, node_entries, HasParts};
ghost use Rattle.tv_cert.specs.AimViews.{aim_states};
ghost use Rattle.tv_cert.specs.NodeViews.{pieces_list};
ghost use Rattle.tv_cert.specs.AboutSystem.{about_of};
ghost use Rattle.tv_cert.specs.FirstFailing.{Checks};
ghost use Rattle.tv_check.specs.Roots.{ValuesFit, SettlesRoot};

use crate::steps::rows_are_covered;
use crate::walking::walk;
use tv_cases::Cases;
use tv_cert::{Aim, Failing, Kind, Node, Targets, Verdict};
use tv_linear::{Cover, Rows};

/// Settles the last obligation where the property is proved: that the pieces of the root cover the start.
fn check_start(about: &Cases, root: &Node, start: &Cover, seen: u64) -> Result<(), Failing>
    requires { seen + 1 < 2 ^ 64 }
    ensures { SettlesRoot (cases_of about.now) root.now (Proved start.now) seen result }
{
    let targets = Targets::Pieces {
        from: None,
        into: &root.pieces,
        location: about.start(),
    };
    if rows_are_covered(about.variables(), Rows::Each(&[]), &targets, start.tree()) {
        Ok(())
    } else {
        Err(root_failing(seen))
    }
}

/// The root's obligation, where it is not met after `seen` others.
fn root_failing(seen: u64) -> Failing
    requires { seen + 1 < 2 ^ 64 }
    ensures { result ≡ record { number = seen + 1; node = 0; kind = Kind.Root } }
{
    Failing {
        number: seen + 1,
        node: 0,
        kind: Kind::Root,
    }
}

/// Settles the last obligation where the property is disproved: that the values are in this piece of the root at the start.
fn check_values(
    about: &Cases,
    root: &Node,
    piece: u32,
    values: &Vec<i128>,
    seen: u64,
) -> Result<(), Failing>
    requires room { seen + 1 < 2 ^ 64 }
    requires over { AreOver (length values.now.items) (pieces_list root.now) }
    ensures { SettlesRoot (cases_of about.now) root.now (Disproved piece values.now) seen result }
{
    if root.pieces.hold(about.start(), piece, values) {
        Ok(())
    } else {
        Err(root_failing(seen))
    }
}

/// Checks a certificate that what the root is to show holds at the start: `Ok` where all its obligations are met, and else the first that
/// is not.
///
/// It takes no memory.
fn check_proved(about: &Cases, aim: &Aim, root: &Node, start: &Cover) -> Result<(), Failing>
    requires parts { HasParts (aim_states aim.now) root.now }
    requires room { length (node_entries 0 (cases_of about.now) (aim_states aim.now) root.now) + 1 < 2 ^ 64 }
    requires nodes { size root.now < 2 ^ 32 }
    ensures { let system = cases_of about.now in
        let states = aim_states aim.now in
        Checks (node_entries 0 system states root.now ++ root_entry (about_of system) (pieces_of root.now) (Proved start.now) ∷ []) result }
{
    match walk(about, aim, 0, root, 0) {
        Err(failing) => Err(failing),
        Ok((seen, _)) => check_start(about, root, start, seen),
    }
}

/// Checks a certificate that what the root is to show holds at the start with these values, which are in this piece of the root there.
///
/// It takes no memory.
fn check_disproved(
    about: &Cases,
    aim: &Aim,
    root: &Node,
    piece: u32,
    values: &Vec<i128>,
) -> Result<(), Failing>
    requires parts { HasParts (aim_states aim.now) root.now }
    requires room { length (node_entries 0 (cases_of about.now) (aim_states aim.now) root.now) + 1 < 2 ^ 64 }
    requires nodes { size root.now < 2 ^ 32 }
    requires over { AreOver (length values.now.items) (pieces_list root.now) }
    ensures { let system = cases_of about.now in
        let states = aim_states aim.now in
        let last = root_entry (about_of system) (pieces_of root.now) (Disproved piece values.now) in
        Checks (node_entries 0 system states root.now ++ last ∷ []) result }
{
    match walk(about, aim, 0, root, 0) {
        Err(failing) => Err(failing),
        Ok((seen, _)) => check_values(about, root, piece, values, seen),
    }
}

/// Checks a certificate against what its root is to show: `Ok` where all its obligations are met, and else the first that is not.
///
/// It takes no memory.
pub fn check(about: &Cases, aim: &Aim, root: &Node, verdict: &Verdict) -> Result<(), Failing>
    requires parts { HasParts (aim_states aim.now) root.now }
    requires room { length (node_entries 0 (cases_of about.now) (aim_states aim.now) root.now) + 1 < 2 ^ 64 }
    requires nodes { size root.now < 2 ^ 32 }
    requires over { ValuesFit verdict.now (pieces_list root.now) }
    ensures { let system = cases_of about.now in
        let states = aim_states aim.now in
        Checks (node_entries 0 system states root.now ++ root_entry (about_of system) (pieces_of root.now) verdict.now ∷ []) result }
{
    match verdict {
        Verdict::Proved(start) => check_proved(about, aim, root, start),
        Verdict::Disproved { piece, values } => check_disproved(about, aim, root, *piece, values),
    }
}
