// The calls that stored cases are for, and the letters that stand for them.
ghost use Rattle.cases.specs.Letters.{Decodes};

// A letter that stands for no call.
#[derive(Clone, Copy, Debug, PartialEq, Eq)]
pub struct UnknownCall(pub u8);

#[derive(Clone, Copy, Debug, PartialEq, Eq)]
pub enum Call {
    Listing,
    Engine,
    Loader,
    Fixed,
    Chosen,
    Traced,
    Hull,
    Stretch,
    Append,
    Run,
    Estimate,
    Sheet,
    Part,
    Reader,
    Writer,
}

impl TryFrom<u8> for Call {
    type Error = UnknownCall;

    ghost try_from_gives = { Decodes };

    fn try_from(letter: u8) -> Result<Call, UnknownCall> {
        match letter {
            b'D' => Ok(Call::Listing),
            b'E' => Ok(Call::Engine),
            b'L' => Ok(Call::Loader),
            b'F' => Ok(Call::Fixed),
            b'C' => Ok(Call::Chosen),
            b'T' => Ok(Call::Traced),
            b'H' => Ok(Call::Hull),
            b'X' => Ok(Call::Stretch),
            b'A' => Ok(Call::Append),
            b'G' => Ok(Call::Run),
            b'B' => Ok(Call::Estimate),
            b'S' => Ok(Call::Sheet),
            b'P' => Ok(Call::Part),
            b'R' => Ok(Call::Reader),
            b'W' => Ok(Call::Writer),
            _ => Err(UnknownCall(letter)),
        }
    }
}
