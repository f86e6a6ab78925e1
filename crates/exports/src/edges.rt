// A room graph made of a lent list of edge records.
ghost use Rattle.std.specs.Prelude.{◌≡◌};
ghost use Rattle.city_count.specs.Room.{make_of};
ghost use Rattle.edge_list.specs.EdgeList.{firsts, seconds};

use city_count::Decided;
use edge_list::Edge;

#[unsafe(no_mangle)]
pub extern "C" fn sendai_room_make_of_edges(n: usize, edges: &[Edge], count: u32) -> Decided
    ensures { result ≡ make_of n (firsts edges.now) (seconds edges.now) count }
{
    Decided::from(edge_list::make(n, edges, count))
}
