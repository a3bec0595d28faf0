// What the listings print of a description: its smallest disk, or why it is refused (01, "Letters to try").
#![tactic(auto)]

ghost use Rattle.std.specs.Prelude.{◌≡◌};
ghost use Rattle.answers.specs.Outcome.{outcome_by};
ghost use Rattle.geometry.specs.Plane.{members, numbers};
ghost use Rattle.radius.specs.Radius.{radius_of};

use answers::Refusal;
use engine::Enclosed;
use geometry::SupportedDisk;
use std::{fmt, io};

// The disk, its support set, whole radius and test count: by `{}` in one line, by `{:#}` in four.
#[derive(Drop)]
pub struct Entry {
    pub enclosed: Enclosed,
    pub whole: u64,
}

impl Entry {
    pub fn of(enclosed: Enclosed) -> Result<Entry, Refusal>
        ensures { outcome_by (λ e. e.whole) result ≡ radius_of (numbers enclosed.found.disk) (members enclosed.found.support) }
    {
        let whole = radius::whole_radius(enclosed.found)?;
        Ok(Entry { enclosed, whole })
    }
}

impl fmt::Display for Entry {
    fn fmt<W: fmt::Write>(&self, f: &mut fmt::Formatter<W>) -> fmt::Result {
        let gap = if f.alternate() { '\n' } else { ' ' };
        let SupportedDisk { disk, support } = self.enclosed.found;
        write!(
            f,
            "disk {disk}{gap}rim {support}{gap}whole {}{gap}tests {}",
            self.whole, self.enclosed.tests
        )
    }
}

// The four lines of what the engine found, or one of its refusal.
pub fn print_enclosed(rt: &impl Print, answer: Result<Enclosed, Refusal>) -> io::Result<()> {
    match answer.and_then(Entry::of) {
        Ok(entry) => println!(rt; "{entry:#}"),
        Err(refusal) => println!(rt; "{refusal}"),
    }
}

// What loader and engine find.
pub fn print_description(rt: &impl Print, text: &[u8]) -> io::Result<()> {
    print_enclosed(rt, letter::enclose(text))
}
