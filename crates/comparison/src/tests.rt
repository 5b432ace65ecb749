// Asks the rows of a graph that was made by hand, from the description of a row and not from the definitions.
use crate::Graph;
use slices::put;

// Puts each row at its place: its action, denominator and count of branches, then weight, mask and location of each branch. The last one
// stands past the edges that there may be.
const ROWS: [(usize, &[u16]); 4] = [
    (0, &[7, 5, 2, 2, 1, 0, 3, 4, 1]),
    (32, &[9, 65535, 1, 65535, 0, 2]),
    (4064, &[8, 1, 1, 1, 3, 6]),
    (4096, &[6, 1, 1, 1, 3, 6]),
];

#[test]
fn rows_are_read(rt: HostRuntime) {
    let mut rows = [0u16; 4160];
    for (start, row) in ROWS {
        for (i, number) in row.iter().enumerate() {
            put(&mut rows, start.saturating_add(i), *number);
        }
    }
    let graph = Graph {
        n: 0,
        k: 128,
        labels: &[],
        nexts: &[],
        flags: &[],
        resets: &[],
        spots: &[],
        rows: &rows,
    };
    for (e, action, whole, count, weights) in [
        (0, 7, 5, 2, [2, 3, 0]),
        (1, 9, 65535, 1, [65535, 0, 0]),
        (2, 0, 0, 0, [0, 0, 0]),
        (127, 8, 1, 1, [1, 0, 0]),
        (128, 0, 0, 0, [0, 0, 0]),
        (usize::MAX, 0, 0, 0, [0, 0, 0]),
    ] {
        assert_eq!(rt; graph.action(e), action, "action of edge {e}");
        assert_eq!(rt; graph.whole(e), whole, "denominator of edge {e}");
        assert_eq!(rt; graph.count(e), count, "branches of edge {e}");
        for (i, weight) in weights.into_iter().enumerate() {
            assert_eq!(rt;
                graph.weight(e, i),
                weight,
                "weight of branch {i} of edge {e}"
            );
        }
        assert_eq!(rt;
            graph.weight(e, usize::MAX),
            0,
            "past all branches of edge {e}"
        );
    }
}
