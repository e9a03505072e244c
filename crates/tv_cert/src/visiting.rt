ghost use Rattle.std.specs.Prelude.{◌≡◌, ◌≤◌, ◌∷◌, [], length, map, false};
ghost use Rattle.std.specs.List.{flat_map};
ghost use Rattle.tv_formula.specs.declared.tree.Path.TheVariants.{Every, Any};
ghost use Rattle.tv_cases.specs.Systems.{cases_of};
ghost use Rattle.tv_cert.specs.Pieces.{place_of, goes};
ghost use Rattle.tv_cert.specs.Targets.{owed_nothing, no_fall};
ghost use Rattle.tv_cert.specs.Obligations.{atom_of, steps_of, cover_of, choice_of, choice_into, truth_targets, hold_side, end_sides, go_of, fix_of, step_fall, first_of, second_of};
ghost use Rattle.tv_cert.specs.AboutSystem.{about_of};
ghost use Rattle.tv_cert.specs.NodeViews.{pieces_list};
ghost use Rattle.tv_cert.specs.AimViews.{aim_states};
ghost use Rattle.tv_cert.specs.Nodes.{piece_owes, node_owes};
ghost use Rattle.tv_cert.specs.OwesViews.{OwedIn, case_falls, destination_owes, obligation_by, targets_of};
ghost use Rattle.tv_cert.specs.Visits.{Visits};

use crate::aim::Aim;
use crate::at::At;
use crate::fixed_point::FixedPoint;
use crate::node::{Kind, Mark, Node};
use crate::owes::{Destination, Owes};
use crate::pieces::Pieces;
use crate::targets::{Targets, pieces_into};
use crate::visitor::Visitor;
use tv_cases::Cases;
use tv_formula::{Path, Shape};

/// Visits one obligation.
fn visit<V: Visitor>(visitor: &mut V, at: &At, kind: Kind, owes: &Owes) -> bool
    requires owed { OwedIn (cases_of at.now.about.now) owes.now }
    requires room { length (obligation_by (cases_of at.now.about.now) at.now.number kind owes.now ∷ []) ≤ V.room visitor.old }
    ensures { let system = cases_of at.now.about.now in
        let owed = obligation_by system at.now.number kind owes.now ∷ [] in
        Visits (V.passes system) (V.stops system) V.room result visitor.old owed visitor.new }
{
    visitor.visit(at.about, at.number, kind, owes)
}

/// Visits a cover of a piece into these targets.
fn visit_targets<'a, V: Visitor>(
    visitor: &mut V,
    at: &At<'a>,
    kind: Kind,
    targets: Targets<'a>,
) -> bool
    requires { let system = cases_of at.now.about.now in
        length (targets_of at.now.number kind system at.now.piece.now targets ∷ []) ≤ V.room visitor.old }
    ensures { let system = cases_of at.now.about.now in
        let owed = targets_of at.now.number kind system at.now.piece.now targets.entry ∷ [] in
        Visits (V.passes system) (V.stops system) V.room result visitor.old owed visitor.new }
{
    let owes = Owes::Cover {
        piece: at.piece,
        case: None,
        targets,
    };
    visit(visitor, at, kind, &owes)
}

/// Visits a cover of a piece into the pieces of all children.
fn visit_joined<V: Visitor>(visitor: &mut V, at: &At, children: &[Node]) -> bool
    requires { let system = cases_of at.now.about.now in
        let into = flat_map (λ a. a) (map pieces_list children.now) in
        length (cover_of at.now.number Kind.Child (about_of system) at.now.piece.now into ∷ []) ≤ V.room visitor.old }
    ensures { let system = cases_of at.now.about.now in
        let into = flat_map (λ a. a) (map pieces_list children.now) in
        let owed = cover_of at.now.number Kind.Child (about_of system) at.now.piece.now into ∷ [] in
        Visits (V.passes system) (V.stops system) V.room result visitor.old owed visitor.new }
{
    let targets = Targets::Joined {
        nodes: children,
        location: at.piece.location(),
    };
    visit_targets(visitor, at, Kind::Child, targets)
}

/// Visits a cover of a piece into the pieces of a region.
fn visit_cover<V: Visitor>(visitor: &mut V, at: &At, kind: Kind, into: &Pieces) -> bool
    requires { let system = cases_of at.now.about.now in
        length (cover_of at.now.number kind (about_of system) at.now.piece.now into.now ∷ []) ≤ V.room visitor.old }
    ensures { let system = cases_of at.now.about.now in
        let owed = cover_of at.now.number kind (about_of system) at.now.piece.now into.now ∷ [] in
        Visits (V.passes system) (V.stops system) V.room result visitor.old owed visitor.new }
{
    let targets = Targets::Pieces {
        from: None,
        into,
        location: at.piece.location(),
    };
    visit_targets(visitor, at, kind, targets)
}

/// Visits a cover of a piece by a location test that is true or false there.
fn visit_truth<V: Visitor>(visitor: &mut V, at: &At, truth: bool) -> bool
    requires { let system = cases_of at.now.about.now in
        length (atom_of at.now.number (about_of system) at.now.piece.now (truth_targets truth) ∷ []) ≤ V.room visitor.old }
    ensures { let system = cases_of at.now.about.now in
        let owed = atom_of at.now.number (about_of system) at.now.piece.now (truth_targets truth) ∷ [] in
        Visits (V.passes system) (V.stops system) V.room result visitor.old owed visitor.new }
{
    visit_targets(visitor, at, Kind::Atom, Targets::Truth(truth))
}

/// Visits a choice at a piece.
fn visit_choice<V: Visitor>(
    visitor: &mut V,
    at: &At,
    kind: Kind,
    stop: bool,
    destination: Destination,
) -> bool
    requires { let system = cases_of at.now.about.now in
        let enters = destination_owes system.variables at.now.piece.now destination in
        length (choice_of at.now.number kind (about_of system) at.now.piece.now stop enters ∷ []) ≤ V.room visitor.old }
    ensures { let system = cases_of at.now.about.now in
        let enters = destination_owes system.variables at.now.piece.now destination.entry in
        let owed = choice_of at.now.number kind (about_of system) at.now.piece.now stop enters ∷ [] in
        Visits (V.passes system) (V.stops system) V.room result visitor.old owed visitor.new }
{
    let owes = Owes::Choice {
        piece: at.piece,
        stop,
        destination,
    };
    visit(visitor, at, kind, &owes)
}

/// Visits a choice that leads into the pieces, where no fall of the ranks is owed.
fn visit_choice_into<V: Visitor>(visitor: &mut V, at: &At, pieces: &Pieces) -> bool
    requires { let about = about_of (cases_of at.now.about.now) in
        let enters = choice_into about pieces.now (λ c draws. no_fall) in
        length (choice_of at.now.number Kind.Choice about at.now.piece.now false enters ∷ []) ≤ V.room visitor.old }
    ensures { let system = cases_of at.now.about.now in
        let enters = choice_into (about_of system) pieces.now (λ c draws. no_fall) in
        let owed = choice_of at.now.number Kind.Choice (about_of system) at.now.piece.now false enters ∷ [] in
        Visits (V.passes system) (V.stops system) V.room result visitor.old owed visitor.new }
{
    let falls = false;
    let into = Destination::Into { pieces, falls };
    visit_choice(visitor, at, Kind::Choice, false, into)
}

/// Visits the steps that a piece owes: one for each case from its location.
fn visit_steps<V: Visitor>(visitor: &mut V, at: &At, into: &Pieces, falls: bool) -> bool
    requires { let system = cases_of at.now.about.now in
        let falls = case_falls falls system at.now.piece.now in
        length (steps_of at.now.number (about_of system) at.now.piece.now into.now falls) ≤ V.room visitor.old }
    ensures { let system = cases_of at.now.about.now in
        let falls = case_falls falls system at.now.piece.now in
        let owed = steps_of at.now.number (about_of system) at.now.piece.now into.now falls in
        Visits (V.passes system) (V.stops system) V.room result visitor.old owed visitor.new }
{
    let piece = at.piece;
    let location = piece.location();
    let mut k = 0;
    'cases: while let Some(case) = at.about.leaving(location, k) {
        let owes = Owes::Cover {
            piece,
            case: Some(case),
            targets: pieces_into(piece, into, case.to, falls),
        };
        if !visit(visitor, at, Kind::Step, &owes) {
            return false;
        }
        k += 1;
    }
    true
}

/// Visits the covers of a piece into the pieces of each child.
fn visit_children<V: Visitor>(visitor: &mut V, at: &At, children: &[Node]) -> bool
    requires { let system = cases_of at.now.about.now in
        let cover = cover_of at.now.number Kind.Child (about_of system) at.now.piece.now in
        length (map cover (map pieces_list children.now)) ≤ V.room visitor.old }
    ensures { let system = cases_of at.now.about.now in
        let cover = cover_of at.now.number Kind.Child (about_of system) at.now.piece.now in
        let owed = map cover (map pieces_list children.now) in
        Visits (V.passes system) (V.stops system) V.room result visitor.old owed visitor.new }
{
    for child in children {
        if !visit_cover(visitor, at, Kind::Child, &child.pieces) {
            return false;
        }
    }
    true
}

/// Visits the covers of a piece that is done: into each side that holds at the end.
fn visit_done<V: Visitor>(visitor: &mut V, at: &At, fixed: &FixedPoint) -> bool
    requires { let system = cases_of at.now.about.now in
        let sides = end_sides fixed.now.shape fixed.now.first.now fixed.now.second.now in
        length (map (cover_of at.now.number Kind.Done (about_of system) at.now.piece.now) sides) ≤ V.room visitor.old }
    ensures { let system = cases_of at.now.about.now in
        let sides = end_sides fixed.now.shape fixed.now.first.now fixed.now.second.now in
        let owed = map (cover_of at.now.number Kind.Done (about_of system) at.now.piece.now) sides in
        Visits (V.passes system) (V.stops system) V.room result visitor.old owed visitor.new }
{
    match fixed.shape {
        Shape::Until | Shape::Weak => visit_cover(visitor, at, Kind::Done, fixed.second),
        Shape::Release | Shape::Strong => {
            if !visit_cover(visitor, at, Kind::Done, fixed.first) {
                return false;
            }
            visit_cover(visitor, at, Kind::Done, fixed.second)
        }
    }
}

/// Visits a choice that shows a successor, and then the steps. Each step makes the ranks fall.
fn visit_ranked<V: Visitor>(visitor: &mut V, at: &At, pieces: &Pieces) -> bool
    requires { let system = cases_of at.now.about.now in
        let successor = choice_of at.now.number Kind.Successor (about_of system) at.now.piece.now false (λ c draws. owed_nothing) in
        let fall = step_fall (about_of system) at.now.piece.now in
        length (successor ∷ steps_of at.now.number (about_of system) at.now.piece.now pieces.now fall) ≤ V.room visitor.old }
    ensures { let system = cases_of at.now.about.now in
        let successor = choice_of at.now.number Kind.Successor (about_of system) at.now.piece.now false (λ c draws. owed_nothing) in
        let fall = step_fall (about_of system) at.now.piece.now in
        let owed = successor ∷ steps_of at.now.number (about_of system) at.now.piece.now pieces.now fall in
        Visits (V.passes system) (V.stops system) V.room result visitor.old owed visitor.new }
{
    let anywhere = Destination::Anywhere;
    if !visit_choice(visitor, at, Kind::Successor, false, anywhere) {
        return false;
    }
    visit_steps(visitor, at, pieces, true)
}

/// Visits what follows the hold cover of a piece that goes on.
fn visit_onward<V: Visitor>(visitor: &mut V, at: &At, fixed: &FixedPoint, pieces: &Pieces) -> bool
    requires { let about = about_of (cases_of at.now.about.now) in
        length (go_of at.now.number about fixed.now.path fixed.now.shape pieces.now at.now.piece.now) ≤ V.room visitor.old }
    ensures { let system = cases_of at.now.about.now in
        let owed = go_of at.now.number (about_of system) fixed.now.path fixed.now.shape pieces.now at.now.piece.now in
        Visits (V.passes system) (V.stops system) V.room result visitor.old owed visitor.new }
{
    let falls = matches!(fixed.shape, Shape::Until | Shape::Strong);
    match fixed.path {
        Path::Every => {
            if falls {
                visit_ranked(visitor, at, pieces)
            } else {
                visit_steps(visitor, at, pieces, false)
            }
        }
        Path::Any => {
            let into = Destination::Into { pieces, falls };
            visit_choice(visitor, at, Kind::Choice, !falls, into)
        }
    }
}

/// Visits the cover of a piece that goes on into what holds on the way.
fn visit_hold<V: Visitor>(visitor: &mut V, at: &At, fixed: &FixedPoint) -> bool
    requires { let system = cases_of at.now.about.now in
        let side = hold_side fixed.now.shape fixed.now.first.now fixed.now.second.now in
        length (cover_of at.now.number Kind.Hold (about_of system) at.now.piece.now side ∷ []) ≤ V.room visitor.old }
    ensures { let system = cases_of at.now.about.now in
        let side = hold_side fixed.now.shape fixed.now.first.now fixed.now.second.now in
        let owed = cover_of at.now.number Kind.Hold (about_of system) at.now.piece.now side ∷ [] in
        Visits (V.passes system) (V.stops system) V.room result visitor.old owed visitor.new }
{
    match fixed.shape {
        Shape::Until | Shape::Weak => visit_cover(visitor, at, Kind::Hold, fixed.first),
        Shape::Release | Shape::Strong => visit_cover(visitor, at, Kind::Hold, fixed.second),
    }
}

/// Visits what a piece of a fixpoint owes.
fn visit_fix<V: Visitor>(visitor: &mut V, at: &At, fixed: &FixedPoint, pieces: &Pieces) -> bool
    requires { let system = cases_of at.now.about.now in
        let piece = at.now.piece.now in
        let owed = fix_of at.now.number (about_of system) fixed.now.path fixed.now.shape pieces.now fixed.now.first.now fixed.now.second.now in
        length (owed piece (goes piece)) ≤ V.room visitor.old }
    ensures { let system = cases_of at.now.about.now in
        let piece = at.now.piece.now in
        let owed = fix_of at.now.number (about_of system) fixed.now.path fixed.now.shape pieces.now fixed.now.first.now fixed.now.second.now in
        Visits (V.passes system) (V.stops system) V.room result visitor.old (owed piece (goes piece)) visitor.new }
{
    match at.piece.mark() {
        Mark::Done => visit_done(visitor, at, fixed),
        Mark::Go => {
            if !visit_hold(visitor, at, fixed) {
                return false;
            }
            visit_onward(visitor, at, fixed, pieces)
        }
    }
}

/// The pieces of the first of the nodes, or none.
fn first_pieces<'a>(nodes: &'a [Node], none: &'a Pieces) -> &'a Pieces
    requires { none.now ≡ [] }
    ensures { result.now ≡ first_of (map pieces_list nodes.now) }
{
    match nodes {
        [] => none,
        [node, ..] => &node.pieces,
    }
}

/// The pieces of the second of the nodes, or none.
fn second_pieces<'a>(nodes: &'a [Node], none: &'a Pieces) -> &'a Pieces
    requires { none.now ≡ [] }
    ensures { result.now ≡ second_of (map pieces_list nodes.now) }
{
    match nodes {
        [] => none,
        [_, rest @ ..] => first_pieces(rest, none),
    }
}

/// Visits what a piece owes for what its node is to show.
fn visit_piece<V: Visitor>(
    visitor: &mut V,
    at: &At,
    aim: &Aim,
    pieces: &Pieces,
    children: &[Node],
) -> bool
    requires { let system = cases_of at.now.about.now in
        let owed = piece_owes at.now.number system (aim_states aim.now) pieces.now (map pieces_list children.now) at.now.piece.now in
        length owed ≤ V.room visitor.old }
    ensures { let system = cases_of at.now.about.now in
        let owed = piece_owes at.now.number system (aim_states aim.now) pieces.now (map pieces_list children.now) at.now.piece.now in
        Visits (V.passes system) (V.stops system) V.room result visitor.old owed visitor.new }
{
    let none = pieces.none();
    let first = first_pieces(children, &none);
    let piece = at.piece;
    match aim {
        Aim::Rows(lists) => visit_targets(visitor, at, Kind::Atom, Targets::Lists(lists)),
        Aim::Here(l) => visit_truth(visitor, at, piece.location() == *l),
        Aim::Elsewhere(l) => visit_truth(visitor, at, piece.location() != *l),
        Aim::Ends => visit_steps(visitor, at, pieces, true),
        Aim::NeverEnds => visit_choice_into(visitor, at, pieces),
        Aim::EachOf(_) => visit_children(visitor, at, children),
        Aim::OneOf(_) => visit_joined(visitor, at, children),
        Aim::After(Path::Every, _) => visit_steps(visitor, at, first, false),
        Aim::After(Path::Any, _) => visit_choice_into(visitor, at, first),
        Aim::Along(path, shape, _, _) => {
            let fixed = FixedPoint {
                path: *path,
                shape: *shape,
                first,
                second: second_pieces(children, &none),
            };
            visit_fix(visitor, at, &fixed, pieces)
        }
    }
}

/// Visits the own obligations of a node, by its pieces in order.
pub fn visit_pieces<V: Visitor>(
    visitor: &mut V,
    about: &Cases,
    number: u32,
    aim: &Aim,
    pieces: &Pieces,
    children: &[Node],
) -> bool
    requires { let system = cases_of about.now in
        length (node_owes number system (aim_states aim.now) pieces.now (map pieces_list children.now)) ≤ V.room visitor.old }
    ensures { let system = cases_of about.now in
        let owed = node_owes number system (aim_states aim.now) pieces.now (map pieces_list children.now) in
        Visits (V.passes system) (V.stops system) V.room result visitor.old owed visitor.new }
{
    for piece in pieces.list() {
        let at = At {
            about,
            number,
            piece,
        };
        if !visit_piece(visitor, &at, aim, pieces, children) {
            return false;
        }
    }
    true
}
