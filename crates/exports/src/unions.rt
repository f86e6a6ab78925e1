// The union's calls.
ghost use Rattle.std.specs.Prelude.{◌≡◌};
ghost use Rattle.union_find.specs.UnionFind.{new_of, find_of, unite_of};

use union_find::{Found, Made, UnionFind, United};

#[unsafe(no_mangle)]
pub extern "C" fn sendai_union_new(n: usize) -> Made
    ensures { result ≡ new_of n }
{
    Made::from(UnionFind::new(n))
}

#[unsafe(no_mangle)]
pub extern "C" fn sendai_union_find(u: UnionFind, x: usize) -> Found
    ensures { result ≡ find_of u x }
{
    let mut found = Found {
        code: 0,
        root: 0,
        union: u,
    };
    match found.union.find(x) {
        Ok(root) => found.root = root,
        Err(refusal) => found.code = u8::from(refusal),
    }
    found
}

#[unsafe(no_mangle)]
pub extern "C" fn sendai_union_unite(u: UnionFind, x: usize, y: usize) -> United
    ensures { result ≡ unite_of u x y }
{
    let mut answer = United {
        code: 0,
        united: false,
        union: u,
    };
    match answer.union.unite(x, y) {
        Ok(united) => answer.united = united,
        Err(refusal) => answer.code = u8::from(refusal),
    }
    answer
}
