ghost use Rattle.std.specs.Prelude.{◌↔◌, ◌≤◌, IsTrue};
ghost use Rattle.std.specs.List.{All};
ghost use Rattle.tv_graph.specs.Graph.{IsBetween};

use std::alloc::Global;
use std::test::Fail;
use tv_graph::{Arc, components};

fn are_in_range(nodes: u32, arcs: &[Arc]) -> bool
    ensures { IsTrue result ↔ All (IsBetween nodes) arcs.now }
{
    arcs.iter().all(|arc| arc.from < nodes && arc.to < nodes)
}

#[test]
fn numbers_in_reverse_topological_order(rt: HostRuntime) -> Result<(), Fail> {
    let cases: [(&str, u32, &[(u32, u32)], &[u32]); 9] = [
        ("no node", 0, &[], &[]),
        ("a single node", 1, &[], &[0]),
        ("a self arc", 2, &[(0, 0), (0, 1)], &[1, 0]),
        ("two and one", 3, &[(0, 1), (1, 0), (1, 2)], &[1, 1, 0]),
        (
            "a chain forwards",
            4,
            &[(0, 1), (1, 2), (2, 3)],
            &[3, 2, 1, 0],
        ),
        (
            "a chain backwards",
            4,
            &[(3, 2), (2, 1), (1, 0)],
            &[0, 1, 2, 3],
        ),
        (
            "a complete graph",
            3,
            &[(0, 1), (0, 2), (1, 0), (1, 2), (2, 0), (2, 1)],
            &[0, 0, 0],
        ),
        (
            "two loops and a shared end",
            5,
            &[
                (0, 1),
                (1, 0),
                (1, 2),
                (2, 3),
                (3, 2),
                (2, 4),
                (0, 4),
                (0, 4),
            ],
            &[2, 2, 1, 1, 0],
        ),
        (
            "an arc into a component that is complete",
            4,
            &[(0, 1), (2, 3), (3, 2), (3, 0)],
            &[1, 0, 2, 2],
        ),
    ];
    for (name, nodes, pairs, want) in cases {
        let arcs: Vec<Arc> = pairs
            .iter()
            .map(|(from, to)| Arc {
                from: *from,
                to: *to,
            })
            .collect(rt.alloc())?;
        assert!(rt; nodes <= 1024 && are_in_range(nodes, &arcs), "{name}");
        let numbers = components(rt.alloc(), nodes, &arcs)?;
        assert_eq!(rt; numbers.as_slice(), want, "{name}");
    }
    Ok(())
}

/// A chain over the first nodes.
fn chain(alloc: Global, nodes: u32) -> Result<Vec<Arc>, Fail>
    requires { nodes ≤ 1024 }
{
    let mut arcs = Vec::new(alloc);
    for to in 1..nodes {
        arcs.push(Arc { from: to - 1, to })?;
    }
    Ok(arcs)
}

#[test]
fn numbers_a_chain_of_as_many_nodes_as_allowed(rt: HostRuntime) -> Result<(), Fail> {
    let arcs = chain(rt.alloc(), 1024)?;
    assert!(rt; are_in_range(1024, &arcs));
    let numbers = components(rt.alloc(), 1024, &arcs)?;
    assert_eq!(rt; numbers.len(), 1024);
    assert!(rt;
        numbers
            .iter()
            .enumerate()
            .all(|(node, number)| node as u64 + *number as u64 == 1023)
    );
    Ok(())
}

#[test]
fn numbers_a_cycle_of_as_many_nodes_as_allowed(rt: HostRuntime) -> Result<(), Fail> {
    let mut arcs = chain(rt.alloc(), 1024)?;
    arcs.push(Arc { from: 1023, to: 0 })?;
    assert!(rt; are_in_range(1024, &arcs));
    let numbers = components(rt.alloc(), 1024, &arcs)?;
    assert_eq!(rt; numbers.len(), 1024);
    assert!(rt; numbers.iter().all(|number| *number == 0));
    Ok(())
}
