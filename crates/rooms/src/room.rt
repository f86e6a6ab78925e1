// A room, and the count over the graph of its cells.

ghost use Rattle.rooms.specs.Lent.{Housed};

use borders::Borders;
use grid::{Direction, Neighbour};
use room_parts::RoomGraph;

// A room's edges at most: two for each cell.
const EDGES: usize = 2048;

// A room's cells in row order, on a board whose given walls have marks.
#[derive(Clone, Copy)]
pub struct Room<'b, 'a> {
    pub borders: Borders<'b>,
    pub marks: &'a [u8],
    pub cells: &'a [u16],
    ghost housed: { Housed borders.grid marks.now borders.states.now cells.now },
}

impl Room<'_, '_> {
    ghost use Rattle.std.specs.Prelude.{◌≡◌, ◌*◌, ◌≤◌, length, IfSome};
    ghost use Rattle.std.proofs.lemmas.List.Edits.{sets};
    ghost use Rattle.grid.specs.Grid.{Cell};
    ghost use Rattle.borders.specs.Border.{state_of};
    ghost use Rattle.rooms.specs.RoomGraph.{room_graph, room_borders, edge_state, side_of, room_entries};
    ghost use Rattle.rooms.specs.Lent.{nowhere, numbered, marked_in, Written, There, edge_of};

    // Each cell of the room gets its vertex, counted from 1; the others have 0.
    fn vertices(self) -> [u16; limits::CELLS]
        ensures { result ≡ numbered self.entry.cells.now 1 nowhere }
    {
        let mut vertices = [0u16; limits::CELLS];
        for (i, &cell) in self.cells.iter().enumerate() {
            vertices[usize::from(cell)] = (i + 1) as u16;
        }
        vertices
    }

    // The edge from a cell in a direction, where the cell there has a vertex and the border between is no given wall.
    fn edge(
        self,
        vertices: &[u16; limits::CELLS],
        cell: usize,
        direction: Direction,
    ) -> Option<Neighbour>
        requires { Cell self.borders.grid cell }
        ensures edge { result ≡ edge_of self.entry.borders.grid self.entry.marks.now vertices.now cell direction }
        ensures there { IfSome result (There self.entry.borders.grid vertices.now) }
    {
        let there = self.borders.grid.step(cell, direction)?;
        if vertices[there.cell] == 0 || self.marks[there.border] != 0 {
            return None;
        }
        Some(there)
    }

    // Writes the ends and the state of each edge, and returns how many edges there are.
    fn edges(self, us: &mut [u16], vs: &mut [u16], states: &mut [u8]) -> usize
        requires us_long { 2 * length self.cells.now ≤ length us.old }
        requires vs_long { 2 * length self.cells.now ≤ length vs.old }
        requires states_long { 2 * length self.cells.now ≤ length states.old }
        ensures { Written self.entry.borders.grid (marked_in self.entry.marks.now) self.entry.borders.states.now self.entry.cells.now
            us.old vs.old states.old us.new vs.new states.new result }
    {
        let vertices = self.vertices();
        let mut m = 0;
        for &cell in self.cells {
            let cell = usize::from(cell);
            for &direction in &grid::FORWARD {
                if let Some(there) = self.edge(&vertices, cell, direction) {
                    us[m] = vertices[cell] - 1;
                    vs[m] = vertices[there.cell] - 1;
                    states[m] = self.borders.states[there.border];
                    m += 1;
                }
            }
        }
        m
    }

    // The count of the room, by arrays of N edges.
    fn find_in<const N: usize>(self, count: usize) -> Option<bool>
        requires room { 2 * length self.cells.now ≤ N }
        requires short { N ≤ 2048 }
        ensures { result ≡ side_of (room_graph self.entry.borders.grid (marked_in self.entry.marks.now) self.entry.cells.now) count
            (edge_state (room_borders self.entry.borders.grid (marked_in self.entry.marks.now) self.entry.cells.now) (state_of self.entry.borders.states.now)) }
    {
        let mut us = [0u16; N];
        let mut vs = [0u16; N];
        let mut states = [0u8; N];
        let m = self.edges(&mut us, &mut vs, &mut states);
        let graph = RoomGraph {
            vertices: self.cells.len(),
            us: &us[..m],
            vs: &vs[..m],
            states: &states[..m],
        };
        graph.failing(count)
    }

    // The count of the room: nothing, or which side of it fails, its Walls (true) or its Connected borders. A room of at most 64 cells has short
    // arrays, since all of an array is zeroed.
    pub fn find(self, count: usize) -> Option<bool>
        ensures { result ≡ side_of (room_graph self.entry.borders.grid (marked_in self.entry.marks.now) self.entry.cells.now) count
            (edge_state (room_borders self.entry.borders.grid (marked_in self.entry.marks.now) self.entry.cells.now) (state_of self.entry.borders.states.now)) }
    {
        if self.cells.len() <= 64 {
            return self.find_in::<128>(count);
        }
        self.find_in::<EDGES>(count)
    }

    // Writes the entries of the room's Walls, or of its Connected edges, to the buffer's front, and returns how many there are.
    pub fn write(self, wall: bool, buffer: &mut [u16]) -> usize
        requires { 2 * length self.cells.now ≤ length buffer.old }
        ensures value { result ≡ length (room_entries self.entry.borders.grid (marked_in self.entry.marks.now) self.entry.cells.now wall (state_of self.entry.borders.states.now)) }
        ensures buffer_after { buffer.new ≡ sets buffer.old 0 (room_entries self.entry.borders.grid (marked_in self.entry.marks.now) self.entry.cells.now wall (state_of self.entry.borders.states.now)) }
    {
        let kind = borders::state_of(wall);
        let vertices = self.vertices();
        let mut n = 0;
        for &cell in self.cells {
            for &direction in &grid::FORWARD {
                let edge = self.edge(&vertices, usize::from(cell), direction);
                if let Some(Neighbour { border, .. }) = edge {
                    if self.borders.states[border] == kind {
                        buffer[n] = borders::entry(border, wall);
                        n += 1;
                    }
                }
            }
        }
        n
    }
}
