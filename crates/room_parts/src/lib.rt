// The parts of a room graph (the two counts of `CityCountConstraint::find_inconsistency`): how many its Connected edges leave, counted down
// by a union, and how many there are when only Walls part vertices, counted by a walk that calls itself. Bounds tell where the union or the
// walk can be left out.
#![tactic(auto)]

ghost use Rattle.std.specs.Prelude.{◌≡◌, ◌≤◌, ◌<◌, length};
ghost use Rattle.limits.specs.Limits.{most_cells, most_borders};
ghost use Rattle.room_parts.specs.Graph.{Lent, states_in, is_state, passing, later_marked};

use arcs::Arcs;
use limits::CELLS;
use union_find::UnionFind;

// A room graph with the states of its edges: edge e is between the vertices at place e of `us` and `vs`.
#[derive(Clone, Copy)]
pub struct RoomGraph<'a> {
    pub vertices: usize,
    pub us: &'a [u16],
    pub vs: &'a [u16],
    pub states: &'a [u8],
    ghost lent: { Lent vertices (length states.now) us.now vs.now states.now },
}

impl RoomGraph<'_> {
    ghost use Rattle.std.specs.Prelude.{ltb, get_or};
    ghost use Rattle.room_parts.specs.Graph.{tipped_of, joined_parts, failing_of};
    ghost use Rattle.room_parts.specs.RoomGraph.{graph_in, edge_states};

    // Counts down from the vertices, one for each uniting Connected edge: does that go below the count? Where even one part less for
    // each Connected edge would not be below it, no edge is united.
    pub fn tipped(self, count: usize) -> bool
        ensures { result ≡ tipped_of (graph_in self.entry) count (edge_states self.entry) }
    {
        self.vertices.saturating_sub(count_of(self.states, 1)) < count && self.counts_below(count)
    }

    // Do the parts joined without Walls outnumber the count? The walk counts them where bounds do not tell.
    pub fn outnumbers(self, count: usize) -> bool
        ensures { result ≡ ltb count (joined_parts (graph_in self.entry) (edge_states self.entry)) }
    {
        let open = self.states.len() - count_of(self.states, 2);
        if count < self.vertices.saturating_sub(open) {
            return true;
        }
        count < self.most_parts() && count < self.joined_parts()
    }

    // Which side of the count fails, where one does: the Walls (true) or the Connected edges.
    pub fn failing(self, count: usize) -> Option<bool>
        ensures { result ≡ failing_of (graph_in self.entry) count (edge_states self.entry) }
    {
        if self.tipped(count) {
            return Some(false);
        }
        self.outnumbers(count).then_some(true)
    }

    // The vertices that edge `i` is between.
    fn ends(self, i: usize) -> (usize, usize)
        requires { i < length self.states.now }
        ensures first { result.0 ≡ get_or self.entry.us.now i 0 }
        ensures second { result.1 ≡ get_or self.entry.vs.now i 0 }
    {
        (usize::from(self.us[i]), usize::from(self.vs[i]))
    }

    // The countdown itself.
    fn counts_below(self, count: usize) -> bool
        ensures { result ≡ tipped_of (graph_in self.entry) count (edge_states self.entry) }
    {
        let mut union = UnionFind::alone(self.vertices);
        let mut left = self.vertices;
        for (i, &state) in self.states.iter().enumerate() {
            let (u, v) = self.ends(i);
            if state == 1 && union.join(u, v) {
                left -= 1;
                if left < count {
                    return true;
                }
            }
        }
        false
    }

    // How many vertices no edge but a Wall joins to an earlier vertex. Each part has one, its first: there are no more parts than that.
    fn most_parts(self) -> usize
        ensures { joined_parts (graph_in self.entry) (edge_states self.entry) ≤ result }
    {
        let mut marks = [0u8; CELLS];
        for (i, &state) in self.states.iter().enumerate() {
            let (u, v) = self.ends(i);
            mark_later(&mut marks, state, u, v);
        }
        count_of(&marks[..self.vertices], 0)
    }

    // How many parts there are when only Walls part vertices. Never inlined, so that a count that is found wrong before it costs no stack for the
    // arcs.
    #[inline(never)]
    fn joined_parts(self) -> usize
        ensures { result ≡ joined_parts (graph_in self.entry) (edge_states self.entry) }
    {
        let mut arcs = Arcs::new();
        let mut count = 0;
        for (i, &state) in self.states.iter().enumerate() {
            if state != 2 {
                let (u, v) = self.ends(i);
                arcs.link(count, u, v);
                arcs.link(count + 1, v, u);
                count += 2;
            }
        }
        arcs.sweep(self.vertices)
    }
}

// Marks the later end of an edge that is no Wall. Each end has a branch of its own: with one store for both, the loop over the edges is
// compiled to take eight at a time and store each alone, which is slower.
fn mark_later(marks: &mut [u8; CELLS], state: u8, u: usize, v: usize)
    requires { (u < most_cells) × (v < most_cells) }
    ensures { marks.new ≡ later_marked state u v marks.old }
{
    if state == 2 {
        return;
    }
    if u < v {
        marks[v] = 1;
    } else if v < u {
        marks[u] = 1;
    }
}

// How many numbers are `k`. The counter is narrow, so that the loop is compiled to take many at a time.
fn count_of(xs: &[u8], k: u8) -> usize
    requires { length xs.now ≤ most_borders }
    ensures { result ≡ passing (is_state k) (states_in xs.now) (length xs.now) }
{
    let mut found = 0u16;
    for &x in xs {
        if x == k {
            found += 1;
        }
    }
    usize::from(found)
}
