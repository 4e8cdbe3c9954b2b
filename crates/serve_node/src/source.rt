//! The file of a configuration, which is read again while a node runs.

use cli_files::{TableSource, configuration_bytes};
use cli_stops::Answer;

/// The file at a path.
#[derive(Drop)]
pub(crate) struct ConfigurationFile<'a> {
    rt: &'a HostRuntime,
    path: &'a str,
}

impl<'a> ConfigurationFile<'a> {
    /// The file at a path, over the files that the runtime gives leave to read.
    pub(crate) fn new(rt: &'a HostRuntime, path: &'a str) -> ConfigurationFile<'a> {
        ConfigurationFile { rt, path }
    }
}

impl TableSource for ConfigurationFile<'_> {
    fn read(&mut self) -> Result<Vec<u8>, Answer> {
        configuration_bytes(self.rt, self.path)
    }
}
