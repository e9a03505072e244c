// The nodes of atoms.

ghost use Rattle.std.specs.Prelude.{◌≡◌, ◌<◌, ◌-◌, ◌^◌, [], ◌∷◌, All, map, length, IfOk};
ghost use Rattle.tv_formula.specs.Properties.{Property};
ghost use Rattle.tv_cases.specs.Systems.{cases_of};
ghost use Rattle.tv_cover.specs.Targets.{AreEven};
ghost use Rattle.tv_region.specs.Regions.{IsPieceOf};
ghost use Rattle.tv_pre.specs.Atoms.{test_lists, IsTestOf, IsEvenTest, IsTested, own_line, own_lines, IsOwnCover, AreAtoms, AreAllAtoms};
ghost use Rattle.tv_pre.specs.Parts.{IsPart};

use crate::narrow::narrow_rows;
use crate::plain::plain_with;
use crate::{Part, Test};
use std::alloc::{AllocError, Global};
use tv_cases::Cases;
use tv_cert::Proof;
use tv_linear::{Cover, CoverTree, Piece, Poly, Region, Row, push_copies, push_item};

/// The line that shows the row at `place` among `count` rows: the row once, and its denial.
fn own_line(alloc: Global, count: usize, place: usize) -> Result<Vec<i64>, AllocError>
    requires { place < count }
    ensures { IfOk result (λ v. v.items ≡ own_line count place) }
{
    let mut line = vec![in alloc; 0i64; place]?;
    push_item(&mut line, 1)?;
    let mut rest = vec![in alloc; 0i64; count - place - 1]?;
    line.append(&mut rest)?;
    push_item(&mut line, 1)?;
    Ok(line)
}

/// Such a line for each of `count` rows.
fn own_lines(alloc: Global, count: usize) -> Result<Vec<Vec<i64>>, AllocError>
    ensures { IfOk result (λ v. map (λ l. l.items) v.items ≡ own_lines count 0 count) }
{
    let mut lines = Vec::new(alloc);
    'rows: for place in 0..count {
        push_item(&mut lines, own_line(alloc, count, place)?)?;
    }
    Ok(lines)
}

/// The cover of `count` rows by the target at the place, which has these rows.
fn own_cover(alloc: Global, count: usize, place: u32) -> Result<Cover, AllocError>
    ensures { IfOk result (IsOwnCover count place) }
{
    let tree = CoverTree::Into {
        target: place,
        fall: 0,
        refutations: own_lines(alloc, count)?,
    };
    match Cover::new(tree) {
        Some(cover) => Ok(cover),
        None => unreachable!(),
    }
}

/// The pieces of a node and their proofs.
#[derive(Drop)]
struct Made {
    pieces: Vec<Piece>,
    proofs: Vec<Proof>,
}

/// The piece of these rows at a location.
fn piece_of(alloc: Global, variables: u32, location: u32, rows: &[Row]) -> Result<Piece, AllocError>
    ensures place { IfOk result (λ p. p.location ≡ location) }
    ensures columns { IfOk result (λ p. p.poly.columns ≡ variables) }
    ensures rows { IfOk result (λ p. p.poly.rows.items ≡ rows.now) }
{
    let mut copies = Vec::new(alloc);
    push_copies(alloc, rows, &mut copies)?;
    let poly = Poly {
        columns: variables,
        rows: copies,
    };
    Ok(Piece { location, poly })
}

/// Puts a piece for each of the lists at a location after others, with the proof that it lies in its own list.
fn push_atoms(
    alloc: Global,
    about: &Cases,
    location: u32,
    lists: &[Vec<Row>],
    made: &mut Made,
) -> Result<(), AllocError>
    requires place { location < (cases_of about.now).locations }
    requires bounded { length lists.now < 2 ^ 32 }
    requires even { All (AreEven (cases_of about.now).variables) (map (λ v. v.items) lists.now) }
    requires over { let about = cases_of about.now in
        All (IsPieceOf about.variables about.locations) made.old.pieces.items }
    ensures { let about = cases_of about.now in
        let rows = map (λ v. v.items) lists.now in
        IfOk result (λ _. AreAtoms about location rows rows made.old.pieces.items made.old.proofs.items
        made.new.pieces.items made.new.proofs.items) }
{
    let variables = about.variables();
    'lists: for place in 0..lists.len() {
        let rows: &[Row] = &lists[place];
        narrow_rows(rows);
        push_item(
            &mut made.pieces,
            piece_of(alloc, variables, location, rows)?,
        )?;
        push_item(
            &mut made.proofs,
            Proof::Covered(own_cover(alloc, rows.len(), place as u32)?),
        )?;
    }
    Ok(())
}

/// The lists of rows of the test at a location.
fn lists_of<'a>(test: &'a Test, location: u32, whole: &'a [Vec<Row>]) -> &'a [Vec<Row>]
    requires { map (λ v. v.items) whole.now ≡ [] ∷ [] }
    ensures { map (λ v. v.items) result.now ≡ test_lists test.now location }
{
    match test {
        Test::Rows(lists) => lists,
        Test::Here(there) => if location == *there { whole } else { &[] },
        Test::Elsewhere(there) => if location == *there { &[] } else { whole },
    }
}

/// One list without rows.
pub(crate) fn whole_lists(alloc: Global) -> Result<Vec<Vec<Row>>, AllocError>
    ensures { IfOk result (λ v. map (λ w. w.items) v.items ≡ [] ∷ []) }
{
    let mut lists = Vec::new(alloc);
    push_item(&mut lists, Vec::new(alloc))?;
    Ok(lists)
}

/// The pieces of the test at all locations, with their proofs.
fn all_atoms(alloc: Global, about: &Cases, test: &Test) -> Result<Made, AllocError>
    requires { IsEvenTest (cases_of about.now).variables test.now }
    ensures { let system = cases_of about.now in
        IfOk result (λ m. AreAllAtoms system test.now system.locations m.pieces.items m.proofs.items) }
{
    let whole = whole_lists(alloc)?;
    let mut made = Made {
        pieces: Vec::new(alloc),
        proofs: Vec::new(alloc),
    };
    'locations: for location in 0..about.locations() {
        let lists = lists_of(&*test, location, &whole);
        if lists.len() >= 1 << 32 {
            return Err(AllocError);
        }
        push_atoms(alloc, about, location, lists, &mut made)?;
    }
    Ok(made)
}

/// The part of an atom: at each location the states where the test is true.
///
/// The rows of a test are over the variables. The formula is the test itself: true or false, a comparison with its lists of rows, or a
/// location test or its negation.
pub fn atom(alloc: Global, about: &Cases, test: &Test) -> Result<Part, AllocError>
    requires even { IsEvenTest (cases_of about.now).variables test.now }
    ensures region { IfOk result (λ part. IsTested (cases_of about.now) test.now part.region) }
    ensures part { let system = cases_of about.now in
        IfOk result (λ part. (f : Property) → IsTestOf system.variables test.now f → IsPart system f part.region part.node) }
{
    let Made { pieces, proofs } = all_atoms(alloc, about, test)?;
    let region = Region {
        variables: about.variables(),
        locations: about.locations(),
        pieces,
    };
    Ok(plain_with(alloc, about, region, Vec::new(alloc), proofs)?)
}
