// Hand-over.
ghost use Rattle.std.specs.Prelude.{◌≡◌, length};
ghost use Rattle.answers.specs.Answers.{written};
ghost use Rattle.answers.specs.Refusals.{listed_plain};
ghost use Rattle.hand_over.specs.HandOver.{hand_over};

use answers::Plain;

#[unsafe(no_mangle)]
pub extern "C" fn sendai_hand_over(entries: &[u16], buffer: &mut [u16]) -> Plain
    ensures value { result ≡ listed_plain (hand_over entries.now (length buffer.old)) }
    ensures buffer_after { buffer.new ≡ written (hand_over entries.now (length buffer.old)) buffer.old }
{
    Plain::from(hand_over::hand_over(entries, buffer))
}
