// A case file from a seed; a case file's puzzle, and its calls on that puzzle. The bytes of the file are lent.
ghost use Rattle.std.specs.Prelude.{◌≡◌, ◌≤◌, length, drop};
ghost use Rattle.std.proofs.lemmas.List.Edits.{sets};
ghost use Rattle.answers.specs.Answers.{written};
ghost use Rattle.answers.specs.Refusals.{listed_plain};
ghost use Rattle.case_file.specs.Sound.{decode_of};
ghost use Rattle.case_run.specs.CaseRun.{opened_of, printed_by, code_in, done_in, ran_of};
ghost use Rattle.generator.specs.Generator.{generated};

use answers::Plain;
use case_run::{Opened, Ran};
use puzzle::Puzzle;

#[unsafe(no_mangle)]
pub extern "C" fn sendai_case_generate(
    seed: u32,
    height: usize,
    width: usize,
    count: usize,
    buffer: &mut [u8],
) -> Plain
    ensures value { result ≡ listed_plain (generated seed height width count (length buffer.old)) }
    ensures buffer_after { buffer.new ≡ written (generated seed height width count (length buffer.old)) buffer.old }
{
    Plain::from(generator::generate(seed, height, width, count, buffer))
}

#[unsafe(no_mangle)]
pub extern "C" fn sendai_case_open(file: &[u8]) -> Opened
    ensures { result ≡ opened_of (decode_of file.now) }
{
    Opened::from(case_run::open(file))
}

#[unsafe(no_mangle)]
pub extern "C" fn sendai_case_run(
    file: &[u8],
    at: usize,
    count: usize,
    p: Puzzle,
    out: &mut [u8],
) -> Ran
    ensures value { result ≡ ran_of (code_in count (length out.old)) p at (done_in count (drop at file.now) (length out.old)) }
    ensures out_after { out.new ≡ sets out.old 0 (printed_by p (done_in count (drop at file.now) (length out.old))) }
    ensures len_in_bounds { result.len ≤ length out.old }
{
    let mut puzzle = p;
    let answer = case_run::run_calls(file, at, count, &mut puzzle, out);
    Ran::new(answer, at, puzzle)
}
