ghost use Rattle.std.specs.Prelude.{◌≡◌, ◌≢◌, [], IfErr, IfOk};
ghost use Rattle.plain_house.specs.Legal.{IsLegal};
ghost use Rattle.line_streams.specs.State.{house_in, state_of};
ghost use Rattle.house_reports.specs.ended_house.Ended.{HasRead, HasStreamed, IsStopped, IsStreamStopped};

use super::counted::CountedHouse;
use command_line::Fault;
use line_streams::{Stream, run_stream, streams_stay_legal};
use ocpi_types::{Config, TryCopy};
use period_order::BookHouse;
use plain_house::{Event, empty_lists_are_legal};
use request_lines::{Device, ScriptFault, Source, run_script, scripts_keep_lists_legal};
use std::alloc::{AllocError, Global};
use std::io;
use std::marker::Model;

/// A house after its last line.
#[derive(Drop)]
pub struct EndedHouse {
    config: Config,
    events: Vec<Event>,
    refused: u128,
}

impl Model for EndedHouse {
    ghost use Rattle.plain_house.specs.Legal.{IsLegal};
    ghost use Rattle.plain_house.specs.State.{State};

    ghost Value = { State };

    ghost view = { λ ended. record { config = ended.config; events = ended.events.items } };

    ghost invariant = { λ ended. IsLegal ended.config ended.events.items };
}

fn counted_house(alloc: Global, config: &Config) -> Result<CountedHouse, AllocError>
    ensures { IfOk result (λ counted. (counted.house.config ≡ config.now) × (counted.house.events ≡ [])) }
{
    let house = BookHouse::new(alloc, config.copy(alloc)?)?;
    Ok(CountedHouse { house, accepted: 0 })
}

/// The events after all lines, and the number of refused lines.
#[derive(Drop)]
struct Left {
    events: Vec<Event>,
    refused: u128,
}

fn answer_lines<R: Source>(
    alloc: Global,
    config: &Config,
    reader: &mut R,
    counted: &mut CountedHouse,
) -> Result<Left, ScriptFault>
    requires config { counted.old.house.config ≡ config.now }
    requires empty { counted.old.house.events ≡ [] }
    ensures events { IfOk result (λ left. HasRead R.reading reader.old reader.new config.now left.events.items) }
    ensures fault { IfErr result (λ fault. fault ≢ ScriptFault.NoMemory → IsStopped R.reading reader.old reader.new config.now fault) }
{
    let mut writer = Device::new(io::sink());
    let count = run_script(alloc, reader, &mut writer, config, counted)?;
    let Ok(events) = counted.house.events(alloc) else {
        return Err(ScriptFault::NoMemory);
    };
    let refused = count.lines.saturating_sub(counted.accepted);
    Ok(Left { events, refused })
}

fn left_by<R: Source>(alloc: Global, config: &Config, reader: &mut R) -> Result<Left, ScriptFault>
    ensures events { IfOk result (λ left. HasRead R.reading reader.old reader.new config.now left.events.items) }
    ensures fault { IfErr result (λ fault. fault ≢ ScriptFault.NoMemory → IsStopped R.reading reader.old reader.new config.now fault) }
{
    let Ok(mut counted) = counted_house(alloc, config) else {
        return Err(ScriptFault::NoMemory);
    };
    answer_lines(alloc, config, reader, &mut counted)
}

/// Returns the house of a stream as it is now.
fn house_of(alloc: Global, stream: &Stream) -> Result<EndedHouse, AllocError>
    requires { let house = house_in (state_of stream.now) in IsLegal house.config house.events }
    ensures { IfOk result (λ ended. ended ≡ house_in (state_of stream.now)) }
{
    let config = stream.base().copy(alloc)?;
    let events = stream.events(alloc)?;
    Ok(EndedHouse {
        config,
        events,
        refused: stream.refused(),
    })
}

fn streamed<R: Source>(
    alloc: Global,
    config: Config,
    reader: &mut R,
) -> Result<EndedHouse, ScriptFault>
    ensures house { IfOk result (λ ended. HasStreamed R.reading reader.old reader.new config ended) }
    ensures fault { IfErr result (λ fault. fault ≢ ScriptFault.NoMemory → IsStreamStopped R.reading reader.old reader.new config fault) }
{
    streams_stay_legal();
    let Ok(mut stream) = Stream::new(alloc, config) else {
        return Err(ScriptFault::NoMemory);
    };
    let mut writer = Device::new(io::sink());
    let count = run_stream(alloc, reader, &mut writer, &mut stream)?;
    let _lines = count.lines;
    match house_of(alloc, &stream) {
        Ok(ended) => Ok(ended),
        Err(AllocError) => Err(ScriptFault::NoMemory),
    }
}

impl EndedHouse {
    ghost use Rattle.std.specs.Prelude.{◌≡◌, ◌≢◌, Ok, IfErr, IfOk, IsOkAnd};
    ghost use Rattle.ocpi_types.specs.ConfigText.{config_of};
    ghost use Rattle.plain_house.specs.Legal.{IsLegal};
    ghost use Rattle.house_reports.specs.ended_house.Ended.{HasRead, HasStreamed, IsFaultOf, IsStopped, IsStreamStopped};

    /// Returns a house of this configuration after the lines of the reader. The answers are not written.
    pub fn of_lines<R: Source>(
        alloc: Global,
        config: Config,
        reader: &mut R,
    ) -> Result<EndedHouse, ScriptFault>
        ensures config { IfOk result (λ ended. ended.config ≡ config) }
        ensures events { IfOk result (λ ended. HasRead R.reading reader.old reader.new config ended.events) }
        ensures fault { IfErr result (λ fault. fault ≢ ScriptFault.NoMemory → IsStopped R.reading reader.old reader.new config fault) }
    {
        empty_lists_are_legal();
        scripts_keep_lists_legal();
        let Left { events, refused } = left_by(alloc, &config, reader)?;
        Ok(EndedHouse {
            config,
            events,
            refused,
        })
    }

    /// Returns a house of the configuration in this file after the lines of the reader.
    pub fn of_file<R: Source>(
        alloc: Global,
        file: &[u8],
        reader: &mut R,
    ) -> Result<EndedHouse, Fault<'static>>
        ensures config { IfOk result (λ ended. config_of file.now ≡ Ok ended.config) }
        ensures events { IfOk result (λ ended. HasRead R.reading reader.old reader.new ended.config ended.events) }
        ensures fault { IfErr result (λ fault. fault ≢ Fault.NoMemory → IsFaultOf (IsStopped R.reading reader.old reader.new) (config_of file.now) fault) }
    {
        let config = Config::read(alloc, file)?;
        Ok(EndedHouse::of_lines(alloc, config, reader)?)
    }

    /// Returns the house of a stream after the lines of the reader. The stream begins under the configuration in this text. The answers
    /// are not written.
    ///
    /// # Errors
    ///
    /// Why the text is no configuration, or the first error of the stream.
    pub fn of_stream<R: Source>(
        alloc: Global,
        text: &[u8],
        reader: &mut R,
    ) -> Result<EndedHouse, Fault<'static>>
        ensures house { IfOk result (λ ended. IsOkAnd (config_of text.now) (λ config. HasStreamed R.reading reader.old reader.new config ended)) }
        ensures fault { IfErr result (λ fault. fault ≢ Fault.NoMemory → IsFaultOf (IsStreamStopped R.reading reader.old reader.new) (config_of text.now) fault) }
    {
        let config = Config::read(alloc, text)?;
        Ok(streamed(alloc, config, reader)?)
    }

    pub fn config(&self) -> &Config
        ensures { result.now ≡ self.now.config }
    {
        &self.config
    }

    /// Returns the events, the first one first.
    pub fn events(&self) -> &[Event]
        ensures value { result.now ≡ self.now.events }
        ensures legal { IsLegal self.now.config result.now }
    {
        self.events.as_slice()
    }

    /// Returns the number of refused lines.
    pub fn refused(&self) -> u128 {
        self.refused
    }
}
