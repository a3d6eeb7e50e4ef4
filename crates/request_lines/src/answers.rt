//! The lines that answer requests.

ghost use Rattle.std.specs.Prelude.{◌≡◌, ◌++◌, IfOk, codes};
ghost use Rattle.request_lines.specs.Inner.Adding.{Adds};
ghost use Rattle.request_lines.specs.Members.{amount_member, flag_member, number_member};
ghost use Rattle.request_lines.specs.TableText.{positions_member};
ghost use Rattle.request_lines.specs.AnswerText.{booked_members, answer_name, answer_values, at_member, scope_member, refusal_values, opening, replied_values, refused_values, reply_values, answer_text};

use super::lines::NEWLINE;
use super::members::{put_amount, put_flag, put_number, put_text};
use super::tables::{put_positions, put_rows};
use exact_money::Amount;
use json::Writer;
use netting_positions::NetPosition;
use ocpi_types::{Config, Refusal};
use plain_house::{Answer, Refused, Replied};
use std::alloc::{AllocError, Global};

fn answer_name(answer: &Answer) -> &'static str
    ensures { result.now ≡ answer_name answer.now }
{
    match answer {
        Answer::Stored => "Stored",
        Answer::Unchanged => "Unchanged",
        Answer::Allowed { .. } => "ALLOWED",
        Answer::Blocked => "BLOCKED",
        Answer::NoCredit(_) => "NO_CREDIT",
        Answer::Released { .. } => "Released",
        Answer::Accepted { .. } => "Accepted",
        Answer::Repeated { .. } => "Repeated",
        Answer::Closed { .. } => "Closed",
        Answer::Settled { .. } => "Settled",
        Answer::Exposure { .. } => "Exposure",
        Answer::Found { .. } => "Found",
        Answer::Statement { .. } => "Statement",
    }
}

fn put_exposure(
    out: &mut Writer,
    holds: Amount,
    debts: Amount,
    limit: Amount,
) -> Result<(), AllocError>
    ensures { Adds result out.old out.new (amount_member (codes "holds") holds ++ (amount_member (codes "debts") debts ++ amount_member (codes "limit") limit)) }
{
    put_amount(out, "holds", holds)?;
    put_amount(out, "debts", debts)?;
    put_amount(out, "limit", limit)
}

fn put_booked(out: &mut Writer, amount: Amount, period: u64) -> Result<(), AllocError>
    ensures { Adds result out.old out.new (booked_members amount period) }
{
    put_amount(out, "amount", amount)?;
    put_number(out, "period", period)
}

fn put_found(
    out: &mut Writer,
    amount: Amount,
    period: u64,
    credited: bool,
) -> Result<(), AllocError>
    ensures { Adds result out.old out.new (booked_members amount period ++ flag_member (codes "credited") credited) }
{
    put_booked(out, amount, period)?;
    put_flag(out, "credited", credited)
}

fn put_closed(
    alloc: Global,
    out: &mut Writer,
    config: &Config,
    period: u64,
    positions: &[NetPosition],
) -> Result<(), AllocError>
    ensures { Adds result out.old out.new (number_member (codes "period") period ++ positions_member config.now positions.now) }
{
    put_number(out, "period", period)?;
    put_positions(alloc, out, config, positions)
}

fn put_answer_values(
    alloc: Global,
    out: &mut Writer,
    config: &Config,
    answer: &Answer,
) -> Result<(), AllocError>
    ensures { Adds result out.old out.new (answer_values config.now answer.now) }
{
    match answer {
        Answer::Stored | Answer::Unchanged | Answer::Blocked | Answer::NoCredit(_) => Ok(()),
        Answer::Allowed { reference } => {
            put_text(out, "authorization_reference", reference.as_str())
        }
        Answer::Released { amount } => put_amount(out, "amount", *amount),
        Answer::Settled { amount } => put_amount(out, "amount", *amount),
        Answer::Accepted { amount, period } => put_booked(out, *amount, *period),
        Answer::Repeated { amount, period } => put_booked(out, *amount, *period),
        Answer::Closed { period, positions } => {
            put_closed(alloc, out, config, *period, positions.as_slice())
        }
        Answer::Statement { rows } => put_rows(alloc, out, config, rows.as_slice()),
        Answer::Found {
            amount,
            period,
            credited,
        } => put_found(out, *amount, *period, *credited),
        Answer::Exposure {
            holds,
            debts,
            limit,
        } => put_exposure(out, *holds, *debts, *limit),
    }
}

fn put_opening(out: &mut Writer, status: u64, called: &str, name: &str) -> Result<(), AllocError>
    ensures { Adds result out.old out.new (opening status called.now name.now) }
{
    put_number(out, "status_code", status)?;
    put_text(out, called, name)
}

fn put_replied(
    alloc: Global,
    out: &mut Writer,
    config: &Config,
    replied: &Replied,
) -> Result<(), AllocError>
    ensures { Adds result out.old out.new (replied_values config.now replied.now) }
{
    put_opening(out, 1000, "answer", answer_name(&replied.answer))?;
    put_number(out, "at", replied.at)?;
    put_answer_values(alloc, out, config, &replied.answer)
}

fn put_at(out: &mut Writer, at: Option<u64>) -> Result<(), AllocError>
    ensures { Adds result out.old out.new (at_member at) }
{
    match at {
        Some(at) => put_number(out, "at", at),
        None => Ok(()),
    }
}

fn put_scope(out: &mut Writer, pair: bool) -> Result<(), AllocError>
    ensures { Adds result out.old out.new (scope_member pair) }
{
    if pair {
        return put_text(out, "scope", "pair");
    }
    Ok(())
}

fn put_over_limit(
    out: &mut Writer,
    exposure: Amount,
    limit: Amount,
    pair: bool,
) -> Result<(), AllocError>
    ensures { Adds result out.old out.new (refusal_values (Refusal.OverLimit exposure limit pair)) }
{
    put_amount(out, "exposure", exposure)?;
    put_amount(out, "limit", limit)?;
    put_scope(out, pair)
}

fn put_too_late(out: &mut Writer, original: u64, current: u64) -> Result<(), AllocError>
    ensures { Adds result out.old out.new (refusal_values (Refusal.TooLate original current)) }
{
    put_number(out, "original", original)?;
    put_number(out, "current", current)
}

fn put_refusal_values(out: &mut Writer, refusal: &Refusal) -> Result<(), AllocError>
    ensures { Adds result out.old out.new (refusal_values refusal.now) }
{
    match refusal {
        Refusal::Field { name } => put_text(out, "field", name.key()),
        Refusal::CostMismatch { rated } => put_amount(out, "rated", *rated),
        Refusal::NotCurrent { current } => put_number(out, "current", *current),
        Refusal::Full { what } => put_text(out, "what", what.name()),
        Refusal::OverLimit {
            exposure,
            limit,
            pair,
        } => put_over_limit(out, *exposure, *limit, *pair),
        Refusal::TooLate { original, current } => put_too_late(out, *original, *current),
        _ => Ok(()),
    }
}

fn put_refused(out: &mut Writer, refused: &Refused) -> Result<(), AllocError>
    ensures { Adds result out.old out.new (refused_values refused.now) }
{
    let refusal = &refused.refusal;
    put_opening(out, refusal.status(), "refusal", refusal.name())?;
    put_number(out, "number", refusal.number())?;
    put_at(out, refused.at)?;
    put_refusal_values(out, refusal)
}

fn put_reply(
    alloc: Global,
    out: &mut Writer,
    config: &Config,
    reply: &Result<Replied, Refused>,
) -> Result<(), AllocError>
    ensures { Adds result out.old out.new (reply_values config.now reply.now) }
{
    match reply {
        Ok(replied) => put_replied(alloc, out, config, replied),
        Err(refused) => put_refused(out, refused),
    }
}

// Most answers are shorter.
const USUAL_BYTES: usize = 256;

/// The line that answers a reply, with its newline. Parties are written as they are configured.
#[tactic(auto, unfolding(crate::specs::AnswerText::answer_text))]
pub fn answer_line(
    alloc: Global,
    config: &Config,
    reply: &Result<Replied, Refused>,
) -> Result<Vec<u8>, AllocError>
    ensures { IfOk result (λ text. text.items ≡ answer_text config.now reply.now) }
{
    let mut out = Writer::new(Vec::with_capacity(alloc, USUAL_BYTES)?);
    out.begin_object()?;
    put_reply(alloc, &mut out, config, reply)?;
    out.end_object()?;
    let mut text = out.into_inner();
    text.push(NEWLINE)?;
    Ok(text)
}
