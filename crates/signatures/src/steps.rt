// Steps: an edge over the names of blocks as a list. The raw form has the edge and the names that its branches land in.
ghost use Rattle.std.specs.Prelude.{ℕ, ◌+◌, ◌-◌, ◌≤◌, ◌<◌, ◌≡◌, ◌++◌, length};
ghost use Rattle.signatures.specs.Sets.{set_of};
ghost use Rattle.signatures.specs.Steps.{mass_of, entry_of};
ghost use Rattle.signatures.specs.Raw.{raw_branches, raw_names, raw_step, Landed};

use crate::sets::insert;
use crate::shares::share;
use arrayvec::ArrayVec;
use slices::at;

// Returns the raw form of an edge from the regions of a class.
pub(crate) fn raw_form(edge: usize, class: usize, graph: &[u16], names: &[u16]) -> ArrayVec<u16, 9>
    requires { edge < 128 }
    ensures { Landed graph.now names.now edge class result.items (length result.items) }
{
    let mut raw = ArrayVec::new();
    raw.push(edge as u16);
    for branch in 0..graph::branch_count(graph, edge) {
        let slot = graph::branch_slot(graph, edge, branch);
        raw.push(at(names, graph::landing_of(graph, class, slot), 0));
    }
    raw
}

// Returns the names of a raw form as a set.
fn gather_names(raw: &[u16]) -> ArrayVec<u32, 8>
    requires { (0 < length raw.now) × (length raw.now ≤ 9) }
    ensures { result.items ≡ set_of (raw_names raw.now 0 (length raw.now - 1)) }
{
    let mut names = ArrayVec::new();
    for name in &raw[1..] {
        insert(u32::from(*name), &mut names);
    }
    names
}

// Sums the weights of the branches that land in a name.
fn mass_of(name: u32, raw: &[u16], edges: &[u32]) -> usize
    requires { (0 < length raw.now) × (length raw.now ≤ 9) }
    ensures value { result ≡ mass_of name (raw_branches edges.now raw.now 0 (length raw.now - 1)) }
    ensures bound { result < 8589934592 }
{
    let edge = usize::from(raw[0]);
    let mut mass = 0;
    for (branch, target) in raw[1..].iter().enumerate() {
        if u32::from(*target) == name {
            mass += graph::low_of(edges, edge, branch);
        }
    }
    mass
}

// Puts a name and its share behind a step, unless the share is 0.
fn put_share(name: u32, mass: usize, denominator: usize, step: &mut ArrayVec<u32, 25>)
    requires { (mass < 8589934592) × (denominator < 1073741824) × (length step.old.items + 3 ≤ 25) }
    ensures { step.new.items ≡ step.old.items ++ entry_of name mass denominator }
{
    if mass != 0 {
        let (high, low) = share(mass, denominator);
        step.push(name);
        step.push(high);
        step.push(low);
    }
}

// Returns the step of a raw form: the action, and then each name with its share.
pub(crate) fn step_of(raw: &[u16], edges: &[u32]) -> ArrayVec<u32, 25>
    requires { (0 < length raw.now) × (length raw.now ≤ 9) }
    ensures { result.items ≡ raw_step edges.now raw.now }
{
    let edge = usize::from(raw[0]);
    let denominator = graph::denominator_of(edges, edge);
    let mut step = ArrayVec::new();
    step.push(graph::action_of(edges, edge) as u32);
    let names = gather_names(raw);
    for name in names.as_slice() {
        put_share(*name, mass_of(*name, raw, edges), denominator, &mut step);
    }
    step
}
