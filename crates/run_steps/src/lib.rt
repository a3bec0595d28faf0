// One glyph of a sheet run under an allowance of tests (02, item 12).
#![tactic(auto)]

ghost use Rattle.std.specs.Prelude.{◌+◌, ◌*◌, ◌≤◌, length};
ghost use Rattle.record_writer.specs.Layout.{record_length};
ghost use Rattle.letter.specs.Letter.{letter_of};
ghost use Rattle.run_steps.specs.Inner.{Stepped};

use answers::Refusal;

// How a run stands behind a glyph: what is left of the allowance, whether no glyph needed more yet, how many were worked. What is
// left is told however a run ends, so that it is no part of an Option in the place of `going`.
#[derive(Drop)]
pub struct Standing {
    pub left: u64,
    pub going: bool,
    pub worked: usize,
}

impl Standing {
    // The next glyph, whose points are put into the list; it is as good a list whatever it holds. If enough is left, its record goes
    // behind those of the worked ones (the writer takes whatever the engine gives). Behind a glyph that needed more, no disk is
    // worked out.
    pub fn step(&mut self, text: &[u8], buffer: &mut [u8], list: &mut [i16]) -> Result<(), Refusal>
        requires room { record_length * self.old.worked + record_length ≤ length buffer.old }
        requires list_long { 8192 ≤ length list.old }
        ensures { Stepped (letter_of text.now) self.old buffer.old self.new buffer.new result }
    {
        if !self.going {
            description::load_into(text, list)?;
            return Err(Refusal::NotAllowed);
        }
        let enclosed = letter::enclose_in(text, list)?;
        let Some(left) = self.left.checked_sub(enclosed.tests) else {
            self.going = false;
            return Err(Refusal::NotAllowed);
        };
        let end = record_writer::RECORD_LENGTH * self.worked;
        record_writer::write_record(enclosed.found, &mut buffer[end..])?;
        self.left = left;
        self.worked += 1;
        Ok(())
    }
}
