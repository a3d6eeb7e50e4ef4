//! Members of the objects on an answer line.

ghost use Rattle.request_lines.specs.Inner.Adding.{Adds};
ghost use Rattle.request_lines.specs.Members.{amount_member, flag_member, number_member, text_member};

use exact_money::{Amount, AmountBuffer};
use json::Writer;
use std::alloc::AllocError;

#[tactic(auto, unfolding(crate::specs::Members::text_member))]
pub fn put_text(out: &mut Writer, called: &str, text: &str) -> Result<(), AllocError>
    ensures { Adds result out.old out.new (text_member called.now text.now) }
{
    out.key(called)?;
    out.string(text)
}

#[tactic(auto, unfolding(crate::specs::Members::number_member))]
pub fn put_number(out: &mut Writer, called: &str, number: u64) -> Result<(), AllocError>
    ensures { Adds result out.old out.new (number_member called.now number) }
{
    out.key(called)?;
    out.u64(number)
}

#[tactic(auto, unfolding(crate::specs::Members::amount_member))]
pub fn put_amount(out: &mut Writer, called: &str, amount: Amount) -> Result<(), AllocError>
    ensures { Adds result out.old out.new (amount_member called.now amount) }
{
    let mut buffer = AmountBuffer::new();
    out.key(called)?;
    out.string(buffer.format(amount))
}

#[tactic(auto, unfolding(crate::specs::Members::flag_member))]
pub fn put_flag(out: &mut Writer, called: &str, flag: bool) -> Result<(), AllocError>
    ensures { Adds result out.old out.new (flag_member called.now flag) }
{
    out.key(called)?;
    out.boolean(flag)
}
