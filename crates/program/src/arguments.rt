// The program's arguments (SPEC 5.7): at most one file, or one option. A file whose name begins with a dash stands behind `--`.
ghost use Rattle.std.specs.Prelude.{◌≡◌, IfOk};
ghost use Rattle.program.specs.Arguments.{asked_in, asked_of, asked_by, is_dashed, word_in};
ghost use Rattle.program.specs.declared.status.Status.TheVariants.{Done};

use crate::{Status, ended, run};
use reasons::Misuse;
use std::env::FillError;
use std::io;
use std::rt::{Env, Files};
use version::VERSION;

// What the program is asked to do.
#[derive(Clone, Copy)]
enum Request<'a> {
    Help,
    Version,
    Run(&'a [u8]),
}

// The longest argument that is read; the system opens no longer name.
const LONGEST: usize = 4096;

const DEFAULT: &[u8] = b"sendai.bin";

const USAGE: &str =
    "sendai [--] [FILE]  runs the calls of a case file, sendai.bin where none is named, and prints a line for each
sendai --help       prints this
sendai --version    prints the version
It ends with 0; 1 where the file or its puzzle is refused, and standard error says why;
2 where it is started in another way; 3 where standard output can't be written.
";

fn print_help(rt: &impl Print) -> io::Result<Status>
    ensures { IfOk result (λ status. status ≡ Done) }
{
    rt.print(USAGE)?;
    Ok(Status::Done)
}

// `sendai 2.1.0`.
fn print_version(rt: &impl Print) -> io::Result<Status>
    ensures { IfOk result (λ status. status ≡ Done) }
{
    let (major, minor, patch) = (VERSION / 10000, VERSION / 100 % 100, VERSION % 100);
    println!(rt; "sendai {major}.{minor}.{patch}")?;
    Ok(Status::Done)
}

// Whether a word begins with a dash.
fn is_dashed(word: &[u8]) -> bool
    ensures { result ≡ is_dashed word.now }
{
    match word.first() {
        Some(&byte) => byte == b'-',
        None => false,
    }
}

// What one word asks for.
fn word_request(word: &[u8]) -> Result<Request<'_>, Misuse<'_>>
    ensures { asked_in result ≡ asked_by word.now }
{
    if word == b"--help".as_slice() {
        Ok(Request::Help)
    } else if word == b"--version".as_slice() {
        Ok(Request::Version)
    } else if word == b"--".as_slice() {
        Ok(Request::Run(DEFAULT))
    } else if is_dashed(word) {
        Err(Misuse::UnknownOption(word))
    } else {
        Ok(Request::Run(word))
    }
}

// What the words ask for, of which there may be more than two.
fn find_request<'a>(
    first: Option<&'a [u8]>,
    second: Option<&'a [u8]>,
    more: bool,
) -> Result<Request<'a>, Misuse<'a>>
    ensures { asked_in result ≡ asked_of (word_in first.entry) (word_in second.entry) more }
{
    match (first, second) {
        (None, _) => Ok(Request::Run(DEFAULT)),
        (Some(word), None) => word_request(word),
        (Some(word), Some(file)) => {
            if word == b"--".as_slice() && !more {
                Ok(Request::Run(file))
            } else {
                Err(Misuse::TooMany)
            }
        }
    }
}

// The argument at a place, if there is one; one that is longer than the buffer is refused.
fn argument<'a>(
    rt: &impl Env,
    at: usize,
    buffer: &'a mut [u8],
) -> Result<Option<&'a [u8]>, Misuse<'a>> {
    match rt.arg(at, buffer) {
        Ok(len) => Ok(Some(&buffer[..len])),
        Err(FillError::NotPresent) => Ok(None),
        Err(FillError::TooLong) => Err(Misuse::LongArgument),
    }
}

// Reads the arguments, into two buffers, and says what they ask for.
fn read_arguments<'a>(
    rt: &impl Env,
    first: &'a mut [u8],
    second: &'a mut [u8],
) -> Result<Request<'a>, Misuse<'a>> {
    let more = !matches!(rt.arg(3, first), Err(FillError::NotPresent));
    find_request(argument(rt, 1, first)?, argument(rt, 2, second)?, more)
}

// Does what the arguments say, and answers how it ended.
pub fn run_arguments(rt: &(impl Env + Files + Print + Eprint)) -> Status {
    let mut first = [0; LONGEST];
    let mut second = [0; LONGEST];
    match read_arguments(rt, &mut first, &mut second) {
        Ok(Request::Help) => ended(rt, print_help(rt)),
        Ok(Request::Version) => ended(rt, print_version(rt)),
        Ok(Request::Run(name)) => run(rt, name),
        Err(misuse) => {
            let _ = rt.eprintln(misuse);
            Status::WrongUse
        }
    }
}
