// Runs the calls of a script and prints each one's answer as a line. The file `stdout` has the answers of the Rust to the same calls.
#![tactic(auto)]

mod boards;
mod cases;
mod desk;
mod grids;
mod puzzles;
mod room_graphs;
mod script;
mod text;
mod turns;
mod unions;
mod waiting;

use desk::Desk;
use script::Command;

const MOST_CALLS: usize = 100_000;

// The last line says that the script ends there, or is cut short; behind the most calls there is none. What can't be written is left out.
fn main(rt: HostRuntime) {
    let mut input = rt.stdin();
    let mut desk = Desk::new(rt.stdout());
    for _ in 0..MOST_CALLS {
        let command = Command::read(&mut input);
        let _ = desk.run(command);
        if command.is_last() {
            return;
        }
    }
}
