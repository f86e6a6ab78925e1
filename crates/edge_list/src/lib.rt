// A room graph made of a lent list of edge records, over the making from two slices of numbers.
#![tactic(auto)]

ghost use Rattle.std.specs.Prelude.{◌≡◌};
ghost use Rattle.city_count.specs.Room.{made, make_of};
ghost use Rattle.edge_list.specs.EdgeList.{firsts, seconds};

use answers::Refusal;
use city_count::CityCountConstraint;

// An edge between two vertices.
#[repr(C)]
#[derive(Clone, Copy)]
pub struct Edge {
    pub u: u16,
    pub v: u16,
}

// How many edges are copied at most: one more than a graph may have, so that the making itself refuses a longer list.
const HELD: usize = 1985;

// A room graph of `n` vertices with these edges, all undecided, or refused as the making from two slices is.
pub fn make(n: usize, edges: &[Edge], count: u32) -> Result<CityCountConstraint, Refusal>
    ensures { made result ≡ make_of n (firsts edges.now) (seconds edges.now) count }
{
    let mut us = [0u16; HELD];
    let mut vs = [0u16; HELD];
    let held = edges.len().min(HELD);
    for (i, edge) in edges[..held].iter().enumerate() {
        us[i] = edge.u;
        vs[i] = edge.v;
    }
    CityCountConstraint::new(n, &us[..held], &vs[..held], count)
}
