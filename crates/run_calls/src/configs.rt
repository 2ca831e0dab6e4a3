//! Configurations, and why they are refused.
use crate::error::ScriptError;
use crate::settings::{number, setting};
use std::alloc::Global;
use twin_run::{ConfigError, TwinConfig};

/// The configuration of a case's settings; `memory none` stands for want of memory.
fn config_of(alloc: Global, head: &str) -> Result<TwinConfig, ConfigError> {
    if setting(head, "memory") == "none" {
        return Err(ConfigError::Memory);
    }
    TwinConfig::new(
        alloc,
        setting(head, "log"),
        setting(head, "nodes"),
        setting(head, "metadata"),
        setting(head, "witness"),
        number(head, "log_blob"),
        number(head, "node_blob"),
        number(head, "witness_blob"),
        number(head, "apply"),
        number(head, "limit"),
    )
}

/// Prints that a configuration is taken, or why it is refused.
pub(crate) fn print_config(rt: &impl Print, alloc: Global, head: &str) -> Result<(), ScriptError> {
    match config_of(alloc, head) {
        Ok(_) => println!(rt; "taken")?,
        Err(error) => println!(rt; "{error}")?,
    }
    Ok(())
}
