// From a description to its record, as C has the call.
#![tactic(auto)]

ghost use Rattle.std.specs.Prelude.{◌≡◌};
ghost use Rattle.letter.specs.Letter.{letter_in, buffer_after};
ghost use Rattle.c_types.specs.Code.{code_of};

pub fn record_of(text: &[u8], buf: &mut [u8]) -> u64
    ensures value { result ≡ code_of (letter_in text.now buf.old) }
    ensures buf_after { buf.new ≡ buffer_after (letter_in text.now buf.old) buf.old }
{
    c_types::code_of(letter::work(text, buf))
}
