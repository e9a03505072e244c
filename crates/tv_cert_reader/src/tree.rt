ghost use Rattle.std.specs.Prelude.{◌<◌, ◌^◌, true, IfOk, length};
ghost use Rattle.tv_cases.specs.Systems.{cases_of};
ghost use Rattle.tv_cert.specs.AimViews.{aim_states};
ghost use Rattle.tv_cert.specs.NodeViews.{pieces_list};
ghost use Rattle.tv_cert_reader.specs.Nodes.{ReadsNode};

use crate::context::Context;
use crate::cursor::Cursor;
use crate::failure::Failure;
use crate::taker::Taker;
use crate::walk::Walk;
use std::mem;
use tv_cert::{Aim, Kind, Node, Owes, Proof};
use tv_lines::Lines;

/// What keeps each proof.
#[derive(Drop)]
struct ProofReader;

impl Taker for ProofReader {
    ghost takes = { λ v e w. Unit {0} };

    ghost room = { λ v. 2 ^ 200 };

    ghost whole = { true };

    fn is_whole(&self) -> bool {
        true
    }

    fn take(
        &mut self,
        context: &Context,
        cursor: &mut Cursor,
        node: u32,
        kind: Kind,
        owes: &Owes,
    ) -> Result<Option<Proof>, Failure> {
        let proof = context.proof(cursor, owes)?;
        Ok(Some(proof))
    }
}

impl Context<'_> {
    /// A node that is to show this, and those below it.
    pub fn node(&self, cursor: &mut Cursor, aim: &Aim) -> Result<Node, Failure>
        ensures read { ReadsNode (cases_of self.now.about.now) (aim_states aim.now) cursor.old cursor.new result }
        ensures bounded { IfOk result (λ n. length (pieces_list n) < 2 ^ 32) }
    {
        let nothing = Cursor {
            lines: Lines::new(&[]),
            taken: 0,
        };
        let mut walk = Walk {
            alloc: self.alloc,
            cursor: mem::replace(cursor, nothing),
            nodes: 0,
            taker: ProofReader,
            proofs: Vec::new(self.alloc),
            failure: None,
        };
        let root = walk.node(self.about, aim);
        let Walk { cursor: left, .. } = walk;
        *cursor = left;
        root
    }
}
