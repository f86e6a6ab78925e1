// Examples: what the program prints for the case files of data/, beside the file's name. Those whose names tell a seed, a size and a count of
// calls are what the generator draws from these.
#![tactic(auto)]

use program::Status;
use std::process::ExitCode;
use std::rt::Files;

// The files in turn; the last is not there.
const NAMES: [&str; 10] = [
    "paper.bin",
    "height_32.bin",
    "height_33.bin",
    "height_0.bin",
    "rooms.bin",
    "seed_9_size_1_1_calls_20.bin",
    "seed_4294967295_size_1_2_calls_40.bin",
    "seed_4_size_4_4_calls_60.bin",
    "seed_384_size_10_10_calls_80.bin",
    "missing.bin",
];

// Each file's name and lines, up to the first that can't be written. A file that is refused is as good an example as any.
fn show_all(rt: &(impl Files + Print + Eprint)) -> Status {
    for name in NAMES {
        if rt.println(name).is_err() || program::run(rt, name.as_bytes()) == Status::NotWritten {
            return Status::NotWritten;
        }
    }
    Status::Done
}

fn main(rt: HostRuntime) -> ExitCode {
    ExitCode::from(show_all(&rt))
}
