// The case file's readers, with a layout and a call as numbers. A list of the file is named by its first byte and its count.
ghost use Rattle.std.specs.Prelude.{◌≡◌, length, drop, get_or};
ghost use Rattle.answers.specs.Answers.{written};
ghost use Rattle.answers.specs.Refusals.{listed_plain};
ghost use Rattle.case_file.specs.Sound.{decode_of, call_of};
ghost use Rattle.case_file.specs.Layout.{file_of, numbers_at, numbers_into, span_of, step_at};
ghost use Rattle.as_numbers.specs.Files.{parts_of, step_fields};

use answers::Plain;
use as_numbers::files::{CallFields, Parts};
use case_file::Span;

#[unsafe(no_mangle)]
pub extern "C" fn sendai_file_decode(file: &[u8]) -> Parts
    ensures { result ≡ parts_of (file_of (decode_of file.now)) }
{
    Parts::from(case_file::decode(file))
}

#[unsafe(no_mangle)]
pub extern "C" fn sendai_file_call(file: &[u8], at: usize) -> CallFields
    ensures { result ≡ step_fields (step_at at (call_of (drop at file.now))) }
{
    CallFields::from(case_file::call_at(file, at))
}

// The k-th number of a list, counted from 0; 0 where there is none.
#[unsafe(no_mangle)]
pub extern "C" fn sendai_file_number(file: &[u8], at: usize, count: usize, k: usize) -> usize
    ensures { result ≡ get_or (numbers_at file.now at count) k 0 }
{
    case_file::number(file, Span { at, count }, k)
}

// The numbers of a list.
#[unsafe(no_mangle)]
pub extern "C" fn sendai_file_numbers(
    file: &[u8],
    at: usize,
    count: usize,
    buffer: &mut [u16],
) -> Plain
    ensures value { result ≡ listed_plain (numbers_into file.now (span_of at count) (length buffer.old)) }
    ensures buffer_after { buffer.new ≡ written (numbers_into file.now (span_of at count) (length buffer.old)) buffer.old }
{
    Plain::from(case_file::numbers(file, Span { at, count }, buffer))
}
