// Ported from `UnionFind`: vertices that are joined part by part. Each vertex names a parent, a root names itself, and two
// vertices are in one part when their chains of parents end at one root.
#![tactic(auto)]

ghost use Rattle.std.specs.Prelude.{◌≡◌, ◌≤◌};
ghost use Rattle.limits.specs.Limits.{most_cells};
ghost use Rattle.union_find.specs.UnionFind.{made_as};

use answers::Refusal;
use limits::CELLS;

// The first `n` places of `parent` are the vertices; what stands behind them is no part of the record.
#[repr(C)]
#[derive(Clone, Copy)]
pub struct UnionFind {
    pub parent: [u16; CELLS],
    pub n: usize,
}

// A record of zeros, which a refused making returns.
impl Default for UnionFind {
    ghost use Rattle.union_find.specs.UnionFind.{zeros, union_of};

    ghost is_default = { λ union. union ≡ union_of zeros 0 };

    #[tactic(auto, unfolding(crate::specs::UnionFind::zeros))]
    fn default() -> UnionFind {
        UnionFind {
            parent: [0; CELLS],
            n: 0,
        }
    }
}

impl UnionFind {
    ghost use Rattle.std.specs.Prelude.{◌<◌};
    ghost use Rattle.std.proofs.lemmas.List.Edits.{sets};
    ghost use Rattle.lists.specs.Lists.{range};
    ghost use Rattle.answers.specs.Refusals.{code_of};
    ghost use Rattle.union_find.specs.Chains.{climb, shortened, united, hung, parents_exist, chains_end};
    ghost use Rattle.union_find.specs.Requires.{Stays, Parents};
    ghost use Rattle.union_find.specs.UnionFind.{zeros, union_of, new_of, find_of, unite_of, check_of, vertex_of, found_as, united_as};

    // A union of `n` vertices, each its own parent.
    pub fn new(n: usize) -> Result<UnionFind, Refusal>
        ensures { made_as result ≡ new_of n }
    {
        if CELLS < n {
            return Err(Refusal::Size);
        }
        Ok(UnionFind::alone(n))
    }

    // The same of a number of vertices that is known to fit.
    #[tactic(auto, unfolding(crate::specs::UnionFind::zeros))]
    pub fn alone(n: usize) -> UnionFind
        requires { n ≤ most_cells }
        ensures { result ≡ union_of (sets zeros 0 (range n)) n }
    {
        let mut union = UnionFind {
            parent: [0; CELLS],
            n,
        };
        union.separate();
        union
    }

    // Makes each vertex a part of its own: its own parent.
    pub fn separate(&mut self)
        requires { self.old.n ≤ most_cells }
        ensures { self.new ≡ union_of (sets self.old.parent 0 (range self.old.n)) self.old.n }
    {
        let n = self.n;
        for (i, own) in self.parent[..n].iter_mut().enumerate() {
            *own = i as u16;
        }
    }

    // The root of `x`; its chain is shortened.
    pub fn find(&mut self, x: usize) -> Result<usize, Refusal>
        ensures { found_as result self.new ≡ find_of self.old x }
    {
        self.check()?;
        self.check_vertex(x)?;
        Ok(self.climb(x, self.n))
    }

    // Unites the parts of `x` and `y`, and tells whether they were two.
    pub fn unite(&mut self, x: usize, y: usize) -> Result<bool, Refusal>
        ensures { united_as result self.new ≡ unite_of self.old x y }
    {
        self.check()?;
        self.check_vertex(x)?;
        self.check_vertex(y)?;
        Ok(self.join(x, y))
    }

    // The vertex `depth` steps above `x`, which is its root where the chain is no longer; each vertex on the way then names it.
    pub fn climb(&mut self, x: usize, depth: usize) -> usize
        requires { Stays self.old.parent x }
        ensures value { result ≡ climb depth self.old.parent x }
        ensures after { self.new ≡ union_of (shortened depth self.old.parent x) self.old.n }
    {
        if depth == 0 {
            return x;
        }
        let up = usize::from(self.parent[x]);
        if up == x {
            return x;
        }
        let root = self.climb(up, depth - 1);
        self.parent[x] = root as u16;
        root
    }

    // What `unite` does to a record that is known to hold together, and to vertices that exist.
    pub fn join(&mut self, x: usize, y: usize) -> bool
        requires parents { Parents self.old.n self.old.parent }
        requires x_lt_n { (x < self.old.n) × (y < self.old.n) }
        ensures value { result ≡ united self.old.n self.old.parent x y }
        ensures after { self.new ≡ union_of (hung self.old.n self.old.parent x y) self.old.n }
    {
        let one = self.climb(x, self.n);
        let other = self.climb(y, self.n);
        if one == other {
            return false;
        }
        self.parent[one] = other as u16;
        true
    }

    // Questions 1 and 2: do the vertices fit, do their parents exist, and does every chain end?
    fn check(&self) -> Result<(), Refusal>
        ensures { code_of result ≡ check_of self.now }
    {
        if CELLS < self.n {
            return Err(Refusal::Size);
        }
        if self.parents_exist() && self.chains_end() {
            Ok(())
        } else {
            Err(Refusal::Record)
        }
    }

    // Question 3: does the vertex exist?
    fn check_vertex(&self, x: usize) -> Result<(), Refusal>
        ensures { code_of result ≡ vertex_of self.now x }
    {
        if self.n <= x {
            return Err(Refusal::Missing);
        }
        Ok(())
    }

    // Is each vertex' parent one of the vertices?
    fn parents_exist(&self) -> bool
        requires { self.now.n ≤ most_cells }
        ensures { result ≡ parents_exist self.now.n self.now.parent }
    {
        lists::all_below(&self.parent[..self.n], self.n)
    }

    // Does every chain end? Each vertex is found in a copy of the union, so that no chain is walked twice.
    fn chains_end(&self) -> bool
        requires { Parents self.now.n self.now.parent }
        ensures { result ≡ chains_end self.now.n self.now.parent }
    {
        let mut found = *self;
        for i in 0..self.n {
            let root = found.climb(i, self.n);
            if usize::from(self.parent[root]) != root {
                return false;
            }
        }
        true
    }
}

// What other languages get of a making, a find and a union: the number of the question that refuses, or 0, and the record that is left.
#[repr(C)]
#[derive(Clone, Copy)]
pub struct Made {
    pub code: u8,
    pub union: UnionFind,
}

#[repr(C)]
#[derive(Clone, Copy)]
pub struct Found {
    pub code: u8,
    pub root: usize,
    pub union: UnionFind,
}

#[repr(C)]
#[derive(Clone, Copy)]
pub struct United {
    pub code: u8,
    pub united: bool,
    pub union: UnionFind,
}

// A making as a record: of zeros where it is refused.
impl From<Result<UnionFind, Refusal>> for Made {
    ghost from_gives = { λ making made. made ≡ made_as making };

    fn from(making: Result<UnionFind, Refusal>) -> Made {
        match making {
            Ok(union) => Made { code: 0, union },
            Err(refusal) => Made {
                code: u8::from(refusal),
                union: UnionFind::default(),
            },
        }
    }
}
