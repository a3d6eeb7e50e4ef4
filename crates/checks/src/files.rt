//! Configurations by their paths.

use crate::check_fault::CheckFault;
use command_line::read_config;
use ocpi_types::Config;

/// The configuration in the file of this path.
pub fn config_in<'a>(rt: &HostRuntime, path: &'a str) -> Result<Config, CheckFault<'a>> {
    let file = read_config(rt, path)?;
    Ok(Config::read(rt.alloc(), file.as_slice())?)
}
