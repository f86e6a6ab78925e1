// The program: reads a case file, runs its calls and prints a line for each as it goes. It ends at the first line that can't be written.
#![tactic(auto)]

ghost use Rattle.std.specs.Prelude.{◌≡◌, ◌≤◌, length, IfOk};
ghost use Rattle.program.specs.Printing.{Prints};
ghost use Rattle.program.specs.Ends.{status_of, ended_in, EndsWritten, EndsRun};
ghost use Rattle.program.specs.declared.status.Status.TheVariants.{Refused};

mod arguments;
mod status;

use answers::Refusal;
pub use arguments::run_arguments;
use case_run::Remaining;
use lines::Line;
use reasons::{FileReason, NotWritten, Why};
pub use status::Status;
use std::fs::File;
use std::io::Read;
use std::rt::Files;
use std::{fs, io};

// 65,536 zeros: room for the longest line, and for the bytes of a file.
fn large_buffer() -> [u8; 65536]
    ensures { 65536 ≡ length result }
{
    [0; 65536]
}

// One `refused` line.
fn refuse(rt: &impl Print, refusal: Refusal) -> io::Result<()> {
    let mut out = large_buffer();
    let len = lines::put_line(Line::from(refusal), &[], &mut out);
    rt.write_all(&out[..len])
}

// The calls of a file on its puzzle, one after the other: a call's line is out before the next call runs. What is left in `remaining` is the puzzle
// after the calls whose lines are out, and the calls behind these.
fn print_calls(rt: &impl Print, file: &[u8], remaining: &mut Remaining) -> io::Result<()>
    ensures { Prints file.now remaining.old remaining.new result }
{
    let mut out = large_buffer();
    for _ in 0..remaining.count {
        let mut puzzle = remaining.puzzle;
        let progress = match case_run::run_calls(file, remaining.at, 1, &mut puzzle, &mut out) {
            Ok(progress) => progress,
            Err(refusal) => return refuse(rt, refusal),
        };
        rt.write_all(&out[..progress.len])?;
        remaining.puzzle = puzzle;
        remaining.at = progress.at;
        remaining.count -= 1;
    }
    Ok(())
}

// A file that is refused, or its puzzle. The line is out before standard error says why; what can't be said there changes nothing.
fn refuse_file(
    rt: &(impl Print + Eprint),
    refusal: Refusal,
    reason: FileReason<'_>,
) -> io::Result<Status>
    ensures { IfOk result (λ status. status ≡ Refused) }
{
    refuse(rt, refusal)?;
    let _ = rt.eprintln(reason);
    Ok(Status::Refused)
}

// What the program prints for the bytes of a file.
fn print_case(rt: &(impl Print + Eprint), name: &[u8], file: &[u8]) -> io::Result<Status>
    ensures { IfOk result (λ status. status ≡ status_of file.now) }
{
    match case_run::open(file) {
        Ok(mut remaining) => {
            print_calls(rt, file, &mut remaining)?;
            Ok(Status::Done)
        }
        Err(refusal) => {
            let why = Why::of_refusal(file, refusal);
            refuse_file(rt, refusal, FileReason { name, why })
        }
    }
}

// Reads until the buffer is full or the file ends, and answers how many bytes it put at the buffer's start.
fn read_full(file: &mut impl Read, buffer: &mut [u8]) -> io::Result<usize>
    ensures { IfOk result (λ n. n ≤ length buffer.new) }
{
    let mut filled = 0;
    while filled < buffer.len() {
        let n = file.read(&mut buffer[filled..])?;
        if n == 0 {
            break;
        }
        filled += n;
    }
    Ok(filled)
}

// Reads a file, as far as the buffer has places. Nothing but a regular file is opened: the open of a pipe waits for its other end. A file that is put
// in another's place between the question and the open is opened all the same.
fn read_file<'a>(rt: &impl Files, name: &[u8], buffer: &mut [u8]) -> Result<usize, Why<'a>>
    ensures { IfOk result (λ n. n ≤ length buffer.new) }
{
    let Ok(name) = std::str::from_utf8(name) else {
        return Err(Why::NotText);
    };
    let metadata = fs::metadata(rt, name)?;
    if metadata.is_dir() {
        return Err(Why::Folder);
    }
    if !metadata.is_file() {
        return Err(Why::NotRegular);
    }
    let mut file = File::open(rt, name)?;
    Ok(read_full(&mut file, buffer)?)
}

// What the program prints for a file; one that can't be read is unsound.
fn print_file(rt: &(impl Files + Print + Eprint), name: &[u8]) -> io::Result<Status>
    ensures { IfOk result (λ status. EndsWritten status) }
{
    let mut buffer = large_buffer();
    match read_file(rt, name, &mut buffer) {
        Ok(n) => print_case(rt, name, &buffer[..n]),
        Err(why) => refuse_file(rt, Refusal::UnsoundFile, FileReason { name, why }),
    }
}

// How a run ended. Where a write failed standard error says so.
fn ended(rt: &impl Eprint, outcome: io::Result<Status>) -> Status
    ensures { result ≡ ended_in outcome }
{
    match outcome {
        Ok(status) => status,
        Err(error) => {
            let _ = rt.eprintln(NotWritten(error));
            Status::NotWritten
        }
    }
}

// Runs the calls of a file, prints a line for each, and answers how it ended.
pub fn run(rt: &(impl Files + Print + Eprint), name: &[u8]) -> Status
    ensures { EndsRun result }
{
    ended(rt, print_file(rt, name))
}
