// The node of termination where the whole program is ranked.

ghost use Rattle.std.specs.Prelude.{◌≡◌, ◌<◌, [], All, IfOk};
ghost use Rattle.tv_formula.specs.Properties.{term};
ghost use Rattle.tv_cases.specs.Systems.{cases_of};
ghost use Rattle.tv_cert.specs.Pieces.{place_of, rows_of};
ghost use Rattle.tv_lexrank.specs.Nodes.{IsRankedNode};
ghost use Rattle.tv_pre.specs.Growing.{IsEverywhere};
ghost use Rattle.tv_pre.specs.Parts.{IsPart};
ghost use Rattle.tv_pre.specs.Pieces.{ArePieces, AreMarked};

use crate::Part;
use std::alloc::{AllocError, Global};
use tv_cases::Cases;
use tv_cert::{Marked, Node};
use tv_linear::{Piece, Poly, Region, push_item};

/// The pieces of a region at the locations of pieces of a node that have no rows.
fn bare_pieces(alloc: Global, about: &Cases, pieces: &[Marked]) -> Result<Vec<Piece>, AllocError>
    requires places { All (λ p. place_of p < (cases_of about.now).locations) pieces.now }
    requires bare { All (λ p. rows_of p ≡ []) pieces.now }
    ensures marked { IfOk result (λ v. AreMarked pieces.now v.items) }
    ensures over { IfOk result (λ v. ArePieces (cases_of about.now) v.items) }
{
    let columns = about.variables();
    let mut all = Vec::new(alloc);
    'pieces: for piece in pieces {
        let rows = Vec::new(alloc);
        let poly = Poly { columns, rows };
        let location = piece.location();
        push_item(&mut all, Piece { location, poly })?;
    }
    Ok(all)
}

/// The part of termination made of a node that ranks all states: it holds everywhere.
pub fn ends_ranked(alloc: Global, about: &Cases, node: Node) -> Result<Part, AllocError>
    requires ranked { IsRankedNode (cases_of about.now) node }
    ensures region { IfOk result (λ part. IsEverywhere (cases_of about.now) part.region) }
    ensures node { IfOk result (λ part. part.node ≡ node) }
    ensures part { IfOk result (λ part. IsPart (cases_of about.now) term part.region part.node) }
{
    let pieces = bare_pieces(alloc, about, node.pieces.list())?;
    let region = Region {
        variables: about.variables(),
        locations: about.locations(),
        pieces,
    };
    Ok(Part { region, node })
}
