ghost use Rattle.std.specs.Prelude.{◌≡◌, ◌<◌, ℕ, List, Ok, length, map};
ghost use Rattle.tv_program.specs.Programs.{system_of};
ghost use Rattle.tv_program.specs.Views.{transition, transitions};
ghost use Rattle.tv_cases.specs.LinearCases.{LinearCase};
ghost use Rattle.tv_cases.specs.EdgeCases.{edge_cases};
ghost use Rattle.tv_cases.specs.ProgramCases.{linear_cases};
ghost use Rattle.tv_edges.specs.Edges.{edge_at, HasCase, IsOfEdge};

use tv_cases::amount_of_commands;
use tv_program::Program;

/// The number of the edge that case `taken` of the program is a case of: the first whose cases, with those of the edges before it, go past
/// that number. It takes no memory.
pub fn edge_of(program: &Program, taken: u32) -> u32
    requires { HasCase (system_of program.now) taken }
    ensures at { let p = system_of program.now in result ≡ edge_at (length p.variables) p.edges taken }
    ensures of { let p = system_of program.now in
        (cases : List LinearCase) → linear_cases p ≡ Ok cases → IsOfEdge p cases taken result }
{
    let edges = program.edges();
    let mut left = u64::from(taken);
    for number in 0..edges.len() {
        let here = amount_of_commands(&edges[number].commands).lists;
        if left < here {
            return number as u32;
        }
        left -= here;
    }
    unreachable!()
}
