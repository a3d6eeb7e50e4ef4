//! Net positions and the rows of statements on an answer line.

ghost use Rattle.std.specs.Prelude.{[], ◌∷◌, flat_map};
ghost use Rattle.json.specs.Token.{begin_array, end_array, key};
ghost use Rattle.request_lines.specs.Inner.Adding.{Adds};
ghost use Rattle.request_lines.specs.TableText.{party_member, position_object, positions_member, row_members, row_object, rows_member, sum_members};

use super::members::{put_amount, put_text};
use json::Writer;
use netting_positions::{NetPosition, StatementRow};
use ocpi_types::{Config, Party};
use std::alloc::{AllocError, Global};

// The party as it is configured.
fn put_party(
    alloc: Global,
    out: &mut Writer,
    config: &Config,
    called: &str,
    party: &Party,
) -> Result<(), AllocError>
    ensures { Adds result out.old out.new (party_member config.now called.now party.now) }
{
    let text = config.as_configured(party).to_string(alloc)?;
    put_text(out, called, text.as_str())
}

#[tactic(auto, unfolding(crate::specs::TableText::position_object))]
fn put_position(
    alloc: Global,
    out: &mut Writer,
    config: &Config,
    position: &NetPosition,
) -> Result<(), AllocError>
    ensures { Adds result out.old out.new (position_object config.now position.now) }
{
    out.begin_object()?;
    put_text(out, "currency", position.currency.as_str())?;
    put_party(alloc, out, config, "party", &position.party)?;
    put_amount(out, "net", position.net)?;
    out.end_object()
}

fn begin_list(out: &mut Writer, called: &str) -> Result<(), AllocError>
    ensures { Adds result out.old out.new (key called.now ∷ begin_array ∷ []) }
{
    out.key(called)?;
    out.begin_array()
}

fn end_list(out: &mut Writer) -> Result<(), AllocError>
    ensures { Adds result out.old out.new (end_array ∷ []) }
{
    out.end_array()
}

fn put_each_position(
    alloc: Global,
    out: &mut Writer,
    config: &Config,
    positions: &[NetPosition],
) -> Result<(), AllocError>
    ensures { Adds result out.old out.new (flat_map (position_object config.now) positions.now) }
{
    let mut rest = positions;
    while let Some((position, later)) = rest.split_first() {
        put_position(alloc, out, config, position)?;
        rest = later;
    }
    Ok(())
}

/// The net positions of a closed period.
pub fn put_positions(
    alloc: Global,
    out: &mut Writer,
    config: &Config,
    positions: &[NetPosition],
) -> Result<(), AllocError>
    ensures { Adds result out.old out.new (positions_member config.now positions.now) }
{
    begin_list(out, "positions")?;
    put_each_position(alloc, out, config, positions)?;
    end_list(out)
}

fn put_sums(out: &mut Writer, row: &StatementRow) -> Result<(), AllocError>
    ensures { Adds result out.old out.new (sum_members row.now) }
{
    put_amount(out, "receivable", row.receivable)?;
    put_amount(out, "payable", row.payable)?;
    put_amount(out, "net", row.net)
}

fn put_row_members(
    alloc: Global,
    out: &mut Writer,
    config: &Config,
    row: &StatementRow,
) -> Result<(), AllocError>
    ensures { Adds result out.old out.new (row_members config.now row.now) }
{
    put_text(out, "currency", row.currency.as_str())?;
    put_party(alloc, out, config, "counterpart", &row.counterpart)?;
    put_sums(out, row)
}

#[tactic(auto, unfolding(crate::specs::TableText::row_object))]
fn put_row(
    alloc: Global,
    out: &mut Writer,
    config: &Config,
    row: &StatementRow,
) -> Result<(), AllocError>
    ensures { Adds result out.old out.new (row_object config.now row.now) }
{
    out.begin_object()?;
    put_row_members(alloc, out, config, row)?;
    out.end_object()
}

fn put_each_row(
    alloc: Global,
    out: &mut Writer,
    config: &Config,
    rows: &[StatementRow],
) -> Result<(), AllocError>
    ensures { Adds result out.old out.new (flat_map (row_object config.now) rows.now) }
{
    let mut rest = rows;
    while let Some((row, later)) = rest.split_first() {
        put_row(alloc, out, config, row)?;
        rest = later;
    }
    Ok(())
}

/// The rows of a statement.
pub fn put_rows(
    alloc: Global,
    out: &mut Writer,
    config: &Config,
    rows: &[StatementRow],
) -> Result<(), AllocError>
    ensures { Adds result out.old out.new (rows_member config.now rows.now) }
{
    begin_list(out, "rows")?;
    put_each_row(alloc, out, config, rows)?;
    end_list(out)
}
