// Classes of joined nets.
//
// Each net has a parent in its class that isn't greater; the least net of a class is its own parent.
ghost use Rattle.std.specs.Prelude.{◌≡◌, ℕ, ◌<◌, ◌≤◌, length, slice_index, All, IfOk};
ghost use Rattle.fabric_model.specs.Joins.{class_of};
ghost use Rattle.fabric_model.specs.Found.{IsBelow, ends_of};
ghost use Rattle.fabric_model.specs.Parents.{IsForest, AreParents, merged};

use crate::on::OnLink;
use std::alloc::{AllocError, Global};

/// The least net of a net's class of joined nets. The nets on the way to it get parents that are nearer to it.
fn root_of(parents: &mut [u32], net: u32) -> u32
    requires forest { IsForest parents.old }
    requires inside { net < length parents.old }
    ensures forest { IsForest parents.new }
    ensures inside { result ≤ net }
    ensures root { slice_index parents.new result ≡ result }
    ensures class { (class : ℕ → ℕ) → AreParents class parents.old → result ≡ class net }
    ensures kept { (class : ℕ → ℕ) → AreParents class parents.old → AreParents class parents.new }
{
    let mut at = net;
    while parents[at as usize] != at {
        let next = parents[parents[at as usize] as usize];
        parents[at as usize] = next;
        at = next;
    }
    at
}

/// Merges the classes of joined nets that two nets belong to.
fn join(parents: &mut [u32], a: u32, b: u32)
    requires forest { IsForest parents.old }
    requires a_inside { a < length parents.old }
    requires b_inside { b < length parents.old }
    ensures forest { IsForest parents.new }
    ensures merged { (class : ℕ → ℕ) → AreParents class parents.old → AreParents (merged class a b) parents.new }
{
    let first = root_of(parents, a);
    let second = root_of(parents, b);
    if first < second {
        parents[second as usize] = first;
    } else {
        parents[first as usize] = second;
    }
}

/// Joins the two nets of each link. No nets are joined before.
fn join_all(parents: &mut [u32], links: &[OnLink])
    requires forest { IsForest parents.old }
    requires inside { All (IsBelow (length parents.old)) links.now }
    requires apart { AreParents (λ net. net) parents.old }
    ensures forest { IsForest parents.new }
    ensures joined { AreParents (class_of (ends_of links.now)) parents.new }
{
    for i in (0..links.len()).rev() {
        join(parents, links[i].src, links[i].dst);
    }
}

/// Makes each net's parent the least net of its class of joined nets.
fn name_all(parents: &mut [u32])
    requires { IsForest parents.old }
    ensures { (class : ℕ → ℕ) → AreParents class parents.old → (net : ℕ) → net < length parents.new → slice_index parents.new net ≡ class net }
{
    for i in 0..parents.len() {
        parents[i] = parents[parents[i] as usize];
    }
}

/// Replaces each net by its class of joined nets, once the two nets of each link are joined.
fn name_joined(nets: &mut [u32], links: &[OnLink])
    requires inside { All (IsBelow (length nets.old)) links.now }
    requires apart { (net : ℕ) → net < length nets.old → slice_index nets.old net ≡ net }
    ensures { (net : ℕ) → net < length nets.new → slice_index nets.new net ≡ class_of (ends_of links.now) net }
{
    join_all(nets, links);
    name_all(nets);
}

/// The numbers of all nets. As long as none are joined, each net is its own class of joined nets.
fn all_nets(alloc: Global, nets: u32) -> Result<Vec<u32>, AllocError>
    ensures length { IfOk result (λ all. length all.items ≡ nets) }
    ensures apart { IfOk result (λ all. (net : ℕ) → net < nets → slice_index all.items net ≡ net) }
{
    let mut all = Vec::with_capacity(alloc, nets as usize)?;
    for net in 0..nets {
        all.push(net)?;
    }
    Ok(all)
}

/// The class of joined nets of each net, once the two nets of each link are joined.
pub(crate) fn classes(alloc: Global, nets: u32, links: &[OnLink]) -> Result<Vec<u32>, AllocError>
    requires { All (IsBelow nets) links.now }
    ensures length { IfOk result (λ classes. length classes.items ≡ nets) }
    ensures classes { IfOk result (λ classes. (net : ℕ) → net < nets → slice_index classes.items net ≡ class_of (ends_of links.now) net) }
{
    let mut classes = all_nets(alloc, nets)?;
    name_joined(&mut classes, links);
    Ok(classes)
}
