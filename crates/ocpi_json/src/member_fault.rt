//! Where a member stands that was not read, and what it has to be.

ghost use Rattle.std.specs.Prelude.{◌≡◌, ◌++◌};
ghost use Rattle.std.specs.Fmt.{WritesOnOk};
ghost use Rattle.ocpi_json.specs.MemberFaults.{deeper, fault_at, item_of, name_of, seen_from, step_of};
ghost use Rattle.ocpi_json.specs.MemberPath.{object_text};

use crate::expected::Expected;
use crate::name::Name;
use std::fmt;

/// A member of an object, or an item of the list that a member is, by its index.
#[derive(Clone, Copy, Debug, PartialEq, Eq)]
pub enum Step {
    Member(Name),
    Item(Name, u16),
}

impl Step {
    /// An item of the list in the member of that name. One that comes after 65,536 others is reported as the list.
    pub fn item(name: Name, index: usize) -> Step
        ensures { result ≡ item_of name index }
    {
        match u16::try_from(index) {
            Ok(index) => Step::Item(name, index),
            Err(_) => Step::Member(name),
        }
    }

    /// The item of that index, or the member itself.
    pub fn new(name: Name, item: Option<usize>) -> Step
        ensures { result ≡ step_of name item }
    {
        match item {
            Some(index) => Step::item(name, index),
            None => Step::Member(name),
        }
    }

    /// The name of the member.
    pub fn name(self) -> Name
        ensures { result ≡ name_of self }
    {
        match self {
            Step::Member(name) | Step::Item(name, _) => name,
        }
    }
}

/// The objects around a member, from the outermost. Of more than four the innermost are left out; no line or configuration has more.
#[derive(Clone, Copy, Debug, PartialEq, Eq)]
pub enum Around {
    Nothing,
    One(Step),
    Two(Step, Step),
    Three(Step, Step, Step),
    Four(Step, Step, Step, Step),
}

impl Around {
    /// The objects as they show in the object around, in which the outermost stands at the step.
    fn deeper(self, step: Step) -> Around
        ensures { result ≡ deeper step self }
    {
        match self {
            Around::Nothing => Around::One(step),
            Around::One(first) => Around::Two(step, first),
            Around::Two(first, second) => Around::Three(step, first, second),
            Around::Three(first, second, third) | Around::Four(first, second, third, _) => {
                Around::Four(step, first, second, third)
            }
        }
    }
}

/// A member that is missing, of another kind or out of bounds.
#[derive(Clone, Copy, Debug, PartialEq, Eq)]
pub struct MemberFault {
    pub around: Around,
    pub member: Step,
    pub expected: Expected,
}

impl MemberFault {
    /// The fault at a member of the object that is read.
    pub fn at(member: Step, expected: Expected) -> MemberFault
        ensures { result ≡ fault_at member expected }
    {
        MemberFault {
            around: Around::Nothing,
            member,
            expected,
        }
    }

    /// The fault as it shows in the object around the one that is read, which stands at the step.
    pub fn seen_from(self, step: Step) -> MemberFault
        ensures { result ≡ seen_from step self }
    {
        MemberFault {
            around: self.around.deeper(step),
            ..self
        }
    }
}

/// Writes the name, and the item: `tariffs[0]`.
impl fmt::Display for Step {
    ghost use Rattle.std.specs.Prelude.{Some};
    ghost use Rattle.ocpi_json.specs.MemberPath.{step_text};

    ghost output = { λ step. Some (step_text step) };

    #[tactic(auto, unfolding(crate::specs::MemberPath::step_text))]
    fn fmt<W: fmt::Write>(&self, f: &mut fmt::Formatter<W>) -> fmt::Result {
        match self {
            Step::Member(name) => write!(f, "{name}"),
            Step::Item(name, index) => write!(f, "{name}[{index}]"),
        }
    }
}

// Writes an object around a member, and a point after it.
fn write_object<W: fmt::Write>(f: &mut fmt::Formatter<W>, object: Step) -> fmt::Result
    ensures { WritesOnOk W.write_str_gives f.old result (object_text object) f.new }
{
    write!(f, "{object}.")
}

fn write_two<W: fmt::Write>(f: &mut fmt::Formatter<W>, first: Step, second: Step) -> fmt::Result
    ensures { WritesOnOk W.write_str_gives f.old result (object_text first ++ object_text second) f.new }
{
    write_object(f, first)?;
    write_object(f, second)
}

/// Writes the path of the innermost object, and a point behind it: `cdr.tariffs[0].elements[2].`.
impl fmt::Display for Around {
    ghost use Rattle.std.specs.Prelude.{Some};
    ghost use Rattle.ocpi_json.specs.MemberPath.{around_text};

    ghost output = { λ around. Some (around_text around) };

    #[tactic(auto, unfolding(crate::specs::MemberPath::around_text))]
    fn fmt<W: fmt::Write>(&self, f: &mut fmt::Formatter<W>) -> fmt::Result {
        match self {
            Around::Nothing => Ok(()),
            Around::One(first) => write_object(f, *first),
            Around::Two(first, second) => write_two(f, *first, *second),
            Around::Three(first, second, third) => {
                write_two(f, *first, *second)?;
                write_object(f, *third)
            }
            Around::Four(first, second, third, fourth) => {
                write_two(f, *first, *second)?;
                write_two(f, *third, *fourth)
            }
        }
    }
}

/// Writes the name of the member alone, as an answer names it. `{around}{member}` is its path.
impl fmt::Display for MemberFault {
    ghost use Rattle.std.specs.Prelude.{Some};
    ghost use Rattle.ocpi_json.specs.MemberFaults.{name_of};
    ghost use Rattle.ocpi_json.specs.Name.{key_text};

    ghost output = { λ fault. Some (key_text (name_of fault.member)) };

    fn fmt<W: fmt::Write>(&self, f: &mut fmt::Formatter<W>) -> fmt::Result {
        f.write_str(self.member.name().key())
    }
}
