// The room count (`CityCountConstraint`): a room graph with its count and a ledger over its edges. Making, stroke, decide, undo and ask.
#![tactic(auto)]

ghost use Rattle.std.specs.Prelude.{◌≡◌, ◌≤◌, length, take};
ghost use Rattle.std.proofs.lemmas.List.Edits.{sets};
ghost use Rattle.limits.specs.Limits.{most_cells, most_borders};
ghost use Rattle.answers.specs.Answers.{written, Finds};
ghost use Rattle.answers.specs.Refusals.{code_of, Answers};
ghost use Rattle.ledger.specs.Ledger.{decisions, state_for};
ghost use Rattle.borders.specs.Entry.{entry_of};
ghost use Rattle.room_parts.specs.Graph.{states_in};
ghost use Rattle.room_parts.specs.RoomGraph.{graph_in, edge_states};
ghost use Rattle.city_count.specs.Fault.{entries_of, lone_fault};
ghost use Rattle.city_count.specs.Room.{ends_exist, room_code, zero_room, answer, made, make_of, room_of, stroke_of, decide_of, undo_of, ask_of};

use answers::Refusal;
use ledger::Book;
use room_parts::RoomGraph;

// Edge i is between the vertices us[i] and vs[i]; the first `edges` places count. The book is over the edges.
#[repr(C)]
#[derive(Clone, Copy)]
pub struct CityCountConstraint {
    pub vertices: usize,
    pub edges: usize,
    pub us: [u16; limits::BORDERS],
    pub vs: [u16; limits::BORDERS],
    pub count: u32,
    pub book: Book,
}

// A record of zeros, which a refused making returns.
impl Default for CityCountConstraint {
    ghost is_default = { λ room. room ≡ zero_room };

    fn default() -> CityCountConstraint {
        CityCountConstraint {
            vertices: 0,
            edges: 0,
            us: [0; limits::BORDERS],
            vs: [0; limits::BORDERS],
            count: 0,
            book: Book::new(),
        }
    }
}

// A room graph with the number of the question that refuses: 0 where the making or call was accepted.
#[repr(C)]
#[derive(Clone, Copy)]
pub struct Decided {
    pub code: u8,
    pub room: CityCountConstraint,
}

impl CityCountConstraint {
    // Puts a graph of `n` vertices with an edge between us[i] and vs[i] for each i, all undecided, in the place of zeros, where questions 1
    // and 3 accept it; a refusal leaves the zeros.
    fn begin(&mut self, n: usize, us: &[u16], vs: &[u16], count: u32) -> Result<(), Refusal>
        requires { self.old ≡ zero_room }
        ensures { answer (code_of result) self.new ≡ make_of n us.now vs.now count }
    {
        if limits::CELLS < n || limits::BORDERS < us.len() || us.len() != vs.len() {
            return Err(Refusal::Size);
        }
        if !ends_exist(n, us, vs) {
            return Err(Refusal::Missing);
        }
        self.vertices = n;
        self.edges = us.len();
        self.count = count;
        self.put_ends(us, vs);
        Ok(())
    }

    // A room graph of `n` vertices with an edge between us[i] and vs[i] for each i, all undecided.
    pub fn new(n: usize, us: &[u16], vs: &[u16], count: u32) -> Result<CityCountConstraint, Refusal>
        ensures { made result ≡ make_of n us.now vs.now count }
    {
        let mut room = CityCountConstraint::default();
        room.begin(n, us, vs, count)?;
        Ok(room)
    }

    // Copies the edges' ends to the fronts of the arrays.
    fn put_ends(&mut self, us: &[u16], vs: &[u16])
        requires { (length us.now ≤ most_borders) × (length vs.now ≤ most_borders) }
        ensures { self.new ≡ room_of self.old.vertices self.old.edges (sets self.old.us 0 us.now) (sets self.old.vs 0 vs.now) self.old.count self.old.book }
    {
        self.us[..us.len()].copy_from_slice(us);
        self.vs[..vs.len()].copy_from_slice(vs);
    }

    // Questions 1 and 2: whether a record holds together.
    pub fn check(&self) -> Result<(), Refusal>
        ensures { code_of result ≡ room_code self.now }
    {
        if limits::CELLS < self.vertices || limits::BORDERS < self.edges {
            return Err(Refusal::Size);
        }
        if !ends_exist(
            self.vertices,
            &self.us[..self.edges],
            &self.vs[..self.edges],
        ) {
            return Err(Refusal::Record);
        }
        self.book.check(self.edges)
    }

    // The graph with its edges' states.
    fn graph(&self) -> RoomGraph<'_>
        requires { room_code self.now ≡ 0 }
        ensures vertices { result.vertices ≡ self.now.vertices }
        ensures ends { (result.us.now ≡ take self.now.edges self.now.us) × (result.vs.now ≡ take self.now.edges self.now.vs) }
        ensures states { (result.states.now ≡ take self.now.edges self.now.book.states) × (length result.states.now ≡ self.now.edges) }
    {
        RoomGraph {
            vertices: self.vertices,
            us: &self.us[..self.edges],
            vs: &self.vs[..self.edges],
            states: &self.book.states[..self.edges],
        }
    }

    // Decides the edges of a stroke, all or none: a refusal leaves the graph as it was.
    pub fn stroke(&mut self, entries: &[u16]) -> Result<(), Refusal>
        ensures { answer (code_of result) self.new ≡ stroke_of self.old (decisions entries.now) }
    {
        self.check()?;
        self.book.stroke(entries, self.edges)
    }

    // Decides an edge as Wall or Connected: a stroke of one.
    pub fn decide(&mut self, edge: usize, wall: bool) -> Result<(), Refusal>
        ensures { answer (code_of result) self.new ≡ decide_of self.old edge wall }
    {
        self.stroke(&[ledger::entry_of(edge, wall)])
    }

    // Takes the whole last stroke back: of a graph that calls have made, the very record before it is there again.
    pub fn undo(&mut self) -> Result<(), Refusal>
        ensures { answer (code_of result) self.new ≡ undo_of self.old }
    {
        self.check()?;
        self.book.undo()
    }

    // The lone room check: clear, or a fault whose list fills the buffer's front.
    pub fn ask(&self, buffer: &mut [u16]) -> Result<Option<usize>, Refusal>
        ensures value { Answers (ask_of self.now (length buffer.old)) result }
        ensures buffer_after { buffer.new ≡ written (ask_of self.now (length buffer.old)) buffer.old }
    {
        self.check()?;
        if buffer.len() < self.edges {
            return Err(Refusal::ShortBuffer);
        }
        Ok(find(self.graph(), self.count as usize, buffer))
    }
}

// Writes the entries of all Walls, or of all Connected edges, to the buffer's front, and returns how many there are.
fn list(states: &[u8], wall: bool, buffer: &mut [u16]) -> usize
    requires { (length states.now ≤ most_borders) × (length states.now ≤ length buffer.old) }
    ensures value { result ≡ length (entries_of (entry_of wall) (state_for wall) (length states.now) (states_in states.now)) }
    ensures buffer_after { buffer.new ≡ sets buffer.old 0 (entries_of (entry_of wall) (state_for wall) (length states.now) (states_in states.now)) }
{
    let kind = borders::state_of(wall);
    let mut n = 0;
    for (i, &state) in states.iter().enumerate() {
        if state == kind {
            buffer[n] = borders::entry(i, wall);
            n += 1;
        }
    }
    n
}

// The lone room check: a fault's list goes to the buffer's front. No edges leave more parts than there are vertices.
fn find(graph: RoomGraph<'_>, count: usize, buffer: &mut [u16]) -> Option<usize>
    requires { length graph.states.now ≤ length buffer.old }
    ensures { Finds (lone_fault (graph_in graph.entry) count (edge_states graph.entry)) buffer.old buffer.new result }
{
    if graph.vertices < count {
        return Some(0);
    }
    let wall = graph.failing(count)?;
    Some(list(graph.states, wall, buffer))
}

// Is each end of the edges one of the `n` vertices?
fn ends_exist(n: usize, us: &[u16], vs: &[u16]) -> bool
    requires { (n ≤ most_cells) × (length us.now ≡ length vs.now) }
    ensures { result ≡ ends_exist n (length us.now) us.now vs.now }
{
    lists::all_below(us, n) && lists::all_below(vs, n)
}

// A making as a record: of zeros where it is refused. The record is made where it stands, and not copied.
pub fn make(n: usize, us: &[u16], vs: &[u16], count: u32) -> Decided
    ensures { result ≡ make_of n us.now vs.now count }
{
    let mut out = Decided {
        code: 0,
        room: CityCountConstraint::default(),
    };
    out.code = answers::code_of(out.room.begin(n, us, vs, count));
    out
}

// What a making answered, as a record: of zeros where it was refused.
impl From<Result<CityCountConstraint, Refusal>> for Decided {
    ghost from_gives = { λ making decided. decided ≡ made making };

    fn from(making: Result<CityCountConstraint, Refusal>) -> Decided {
        match making {
            Ok(room) => Decided { code: 0, room },
            Err(refusal) => Decided {
                code: u8::from(refusal),
                room: CityCountConstraint::default(),
            },
        }
    }
}
