// The lists of arcs of a graph, one list a vertex, and the walk over them: a walk calls itself, and a sweep counts the walks, one a part.
#![tactic(auto)]

use limits::CELLS;

// An edge is two arcs, one each way, and a board has 1,984 borders.
const ARCS: usize = 3968;

// `head` has the first arc of each vertex' list, and `next` the one after each arc, both one more than the arc's number, and 0 at
// the list's end; `to` is where an arc leads.
#[derive(Drop)]
pub struct Arcs {
    pub head: [u16; CELLS],
    pub next: [u16; ARCS],
    pub to: [u16; ARCS],
}

impl Arcs {
    ghost use Rattle.std.specs.Prelude.{ℕ, ◌≡◌, ◌+◌, ◌<◌, ◌≤◌, get_or, set, []};
    ghost use Rattle.limits.specs.Limits.{most_cells};
    ghost use Rattle.arcs.specs.Walk.{Walk, Walked, Sweep, Counted};
    ghost use Rattle.arcs.specs.Linked.{Linked};

    // Lists without an arc.
    pub fn new() -> Arcs
        ensures { (n : ℕ) → n ≤ most_cells → Linked [] n 0 result.head result.next result.to }
    {
        Arcs {
            head: [0; CELLS],
            next: [0; ARCS],
            to: [0; ARCS],
        }
    }

    // Puts an arc, from `u` to `v`, at the front of `u`'s list.
    pub fn link(&mut self, arc: usize, u: usize, v: usize)
        requires { (arc < 3968) × (u < most_cells) × (v < most_cells) }
        ensures head_after { self.new.head ≡ set self.old.head u (arc + 1) }
        ensures next_after { self.new.next ≡ set self.old.next arc (get_or self.old.head u 0) }
        ensures to_after { self.new.to ≡ set self.old.to arc v }
    {
        self.next[arc] = self.head[u];
        self.to[arc] = v as u16;
        self.head[u] = (arc + 1) as u16;
    }

    // Marks `u` and all that is joined to it. The walk calls itself, at most `left` deep.
    fn walk(&self, seen: &mut [u8; CELLS], u: usize, left: usize)
        requires { Walk self.now.head self.now.next self.now.to seen.old u left }
        ensures { Walked self.now.head self.now.next self.now.to seen.old u seen.new }
    {
        seen[u] = 1;
        let mut at = usize::from(self.head[u]);
        while 0 < at {
            let arc = at - 1;
            let v = usize::from(self.to[arc]);
            if seen[v] == 0 {
                self.walk(seen, v, left - 1);
            }
            at = usize::from(self.next[arc]);
        }
    }

    // Walks from each of the first `n` vertices that has no mark, and counts these walks: one a part.
    pub fn sweep(&self, n: usize) -> usize
        requires { Sweep n self.now.head self.now.next self.now.to }
        ensures { Counted n self.now.head self.now.next self.now.to result }
    {
        let mut seen = [0u8; CELLS];
        let mut parts = 0;
        for s in 0..n {
            if seen[s] == 0 {
                self.walk(&mut seen, s, n);
                parts += 1;
            }
        }
        parts
    }
}
