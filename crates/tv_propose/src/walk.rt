// A walk over the rows of a table, at each location again.

ghost use Rattle.std.specs.Prelude.{◌≡◌, ◌<◌, ◌≤◌, [], length, get_or, IfOk, Ok, None};
ghost use Rattle.std.specs.Result.{IfErr};
ghost use Rattle.tv_cases.specs.Systems.{cases_of};
ghost use Rattle.tv_propose.specs.Rests.{IsFewer, IsGiven, IsFirstOf};
ghost use Rattle.tv_propose.specs.Walks.{left_in_group, left_in_table, rest_of};

use crate::table::Table;
use std::alloc::{AllocError, Global};
use tv_candidates::Candidate;
use tv_cases::Cases;
use tv_linear::Row;

/// Where a walk stands, and how many candidates it may still give.
#[derive(Drop)]
pub struct Walk {
    pub left: u64,
    pub location: u32,
    pub group: usize,
    pub place: usize,
    /// The number of the next row at the place.
    pub row: u32,
}

impl Walk {
    /// Begins before the first row at the first location.
    pub fn new(left: u64) -> Walk
        ensures { result ≡ record { left = left; location = 0; group = 0; place = 0; row = 0 } }
    {
        Walk {
            left,
            location: 0,
            group: 0,
            place: 0,
            row: 0,
        }
    }

    /// The next row of the group.
    fn next_in_group<T: Table>(
        &mut self,
        alloc: Global,
        about: &Cases,
        table: &T,
    ) -> Result<Option<Row>, AllocError>
        requires { self.old.group < length (T.rows table.now (cases_of about.now)) }
        ensures next { let places = get_or (T.rows table.now (cases_of about.now)) self.old.group [] in
            IfOk result (IsFirstOf (left_in_group places self.old.place self.old.row) (left_in_group places self.new.place self.new.row)) }
        ensures left { self.new.left ≡ self.old.left }
        ensures location { self.new.location ≡ self.old.location }
        ensures group { self.new.group ≡ self.old.group }
    {
        let places = table.places(about, self.group);
        'places: while self.place < places {
            if let Some(row) = table.row(alloc, about, self)? {
                self.row += 1;
                return Ok(Some(row));
            }
            self.place += 1;
            self.row = 0;
        }
        Ok(None)
    }

    /// The next row at the location.
    fn next_in_table<T: Table>(
        &mut self,
        alloc: Global,
        about: &Cases,
        table: &T,
    ) -> Result<Option<Row>, AllocError>
        ensures next { let rows = T.rows table.now (cases_of about.now) in
            IfOk result (IsFirstOf (left_in_table rows self.old) (left_in_table rows self.new)) }
        ensures left { self.new.left ≡ self.old.left }
        ensures location { self.new.location ≡ self.old.location }
    {
        let groups = table.groups(about);
        'groups: while self.group < groups {
            if let Some(row) = self.next_in_group(alloc, about, table)? {
                return Ok(Some(row));
            }
            self.group += 1;
            self.place = 0;
            self.row = 0;
        }
        Ok(None)
    }

    /// The next candidate.
    pub fn next<T: Table>(
        &mut self,
        alloc: Global,
        about: &Cases,
        table: &T,
    ) -> Result<Option<Candidate>, AllocError>
        ensures fewer { IfOk result (IsFewer self.old.left self.new.left) }
        ensures spent { self.old.left ≡ 0 → result ≡ Ok None }
        ensures kept { IfErr result (λ _. self.new.left ≤ self.old.left) }
        ensures given { let about = cases_of about.now in
            let rows = T.rows table.now about in
            IfOk result (IsGiven (rest_of about rows self.old) (rest_of about rows self.new)) }
    {
        let locations = about.locations();
        'locations: while self.left > 0 && self.location < locations {
            if let Some(row) = self.next_in_table(alloc, about, table)? {
                self.left -= 1;
                let location = self.location;
                return Ok(Some(Candidate { location, row }));
            }
            self.location += 1;
            self.group = 0;
            self.place = 0;
            self.row = 0;
        }
        self.left = 0;
        Ok(None)
    }
}
