// Edges: action, denominator and weights in the edge slice, branches by slot in the graph slice.
ghost use Rattle.std.specs.Prelude.{ℕ, ◌+◌, ◌%◌, ◌<◌, ◌≡◌, get_or, set};
ghost use Rattle.graph.specs.Columns.{edge_place, weight_bound};
ghost use Rattle.graph.specs.Readers.{branch_count, branch_slot, action_of, denominator_of, low_of, high_of};
ghost use Rattle.graph.specs.Writers.{with_branch_count, with_branch_slot, with_edge, with_weight};

use crate::columns::BRANCH_SLOTS;
use slices::{at, put};

// Returns how many branches an edge has.
#[tactic(auto, unfolding(crate::specs::Readers::branch_count))]
pub fn branch_count(graph: &[u16], edge: usize) -> usize
    ensures { (result ≡ branch_count graph.now edge) × (result < 9) }
{
    BRANCH_SLOTS.get(graph, 9 * (edge % 128)) % 9
}

// Returns the slot of a branch.
#[tactic(auto, unfolding(crate::specs::Readers::branch_slot))]
pub fn branch_slot(graph: &[u16], edge: usize, branch: usize) -> usize
    ensures { (result ≡ branch_slot graph.now edge branch) × (result < 1024) }
{
    BRANCH_SLOTS.get(graph, 9 * (edge % 128) + 1 + branch % 8) % 1024
}

// Returns a number of the row of an edge, or 0 past the end of the slice.
#[tactic(auto, unfolding(crate::specs::Columns::edge_place))]
fn number_of(edges: &[u32], edge: usize, k: usize) -> usize
    requires { k < 18 }
    ensures { (result ≡ get_or edges.now (edge_place edge + k) 0) × (result < 4294967296) }
{
    at(edges, 18 * (edge % 128) + k, 0) as usize
}

// Returns the action of an edge.
#[tactic(auto, unfolding(crate::specs::Readers::action_of))]
pub fn action_of(edges: &[u32], edge: usize) -> usize
    ensures { (result ≡ action_of edges.now edge) × (result < 4294967296) }
{
    number_of(edges, edge, 0)
}

// Returns the denominator of an edge.
#[tactic(auto, unfolding(crate::specs::Readers::denominator_of))]
pub fn denominator_of(edges: &[u32], edge: usize) -> usize
    ensures { (result ≡ denominator_of edges.now edge) × (result < 1073741824) }
{
    number_of(edges, edge, 1) % 1073741824
}

// Returns the low weight of a branch.
#[tactic(auto, unfolding(crate::specs::Readers::low_of))]
pub fn low_of(edges: &[u32], edge: usize, branch: usize) -> usize
    ensures { (result ≡ low_of edges.now edge branch) × (result < 1073741824) }
{
    number_of(edges, edge, 2 + 2 * (branch % 8)) % 1073741824
}

// Returns the high weight of a branch.
#[tactic(auto, unfolding(crate::specs::Readers::high_of))]
pub fn high_of(edges: &[u32], edge: usize, branch: usize) -> usize
    ensures { (result ≡ high_of edges.now edge branch) × (result < 1073741824) }
{
    number_of(edges, edge, 3 + 2 * (branch % 8)) % 1073741824
}

// Stores how many branches an edge has.
#[tactic(auto, unfolding(crate::specs::Writers::with_branch_count))]
pub fn store_branch_count(edge: usize, count: usize, graph: &mut [u16])
    ensures { graph.new ≡ with_branch_count graph.old edge count }
{
    BRANCH_SLOTS.set(9 * (edge % 128), count, graph);
}

// Stores the slot of a branch.
#[tactic(auto, unfolding(crate::specs::Writers::with_branch_slot))]
pub fn store_branch_slot(edge: usize, branch: usize, slot: usize, graph: &mut [u16])
    ensures { graph.new ≡ with_branch_slot graph.old edge branch slot }
{
    BRANCH_SLOTS.set(9 * (edge % 128) + 1 + branch % 8, slot, graph);
}

// Stores a number, modulo 2^32, in the row of an edge, unless its place is past the end of the slice.
#[tactic(auto, unfolding(crate::specs::Columns::edge_place))]
fn store_number(edge: usize, k: usize, number: usize, edges: &mut [u32])
    requires { k < 18 }
    ensures { edges.new ≡ set edges.old (edge_place edge + k) (number % 4294967296) }
{
    put(edges, 18 * (edge % 128) + k, (number % 4294967296) as u32);
}

// Stores the action and the denominator of an edge.
#[tactic(auto, unfolding(crate::specs::Writers::with_edge))]
pub fn store_edge(edge: usize, action: usize, denominator: usize, edges: &mut [u32])
    ensures { edges.new ≡ with_edge edges.old edge action denominator }
{
    store_number(edge, 0, action, edges);
    store_number(edge, 1, denominator, edges);
}

// Stores the low and the high weight of a branch.
#[tactic(auto, unfolding(crate::specs::Writers::with_weight))]
pub fn store_weight(edge: usize, branch: usize, low: usize, high: usize, edges: &mut [u32])
    ensures { edges.new ≡ with_weight edges.old edge branch low high }
{
    store_number(edge, 2 + 2 * (branch % 8), low, edges);
    store_number(edge, 3 + 2 * (branch % 8), high, edges);
}
