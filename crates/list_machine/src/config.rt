ghost use Rattle.std.specs.Prelude.{◌≡◌};
ghost use Rattle.list_machine.specs.ConfigNames.{are_names_same};
ghost use Rattle.list_machine.specs.declared.config.ConfigError.TheVariants.{Memory};

use std::alloc::{AllocError, Global};
use std::marker::Model;
use std::num::NonZeroU64;
use thiserror::Error;

/// The greatest length of a value under the program's configuration.
pub const VALUE_LIMIT: u64 = 1048576;

/// Why a configuration is refused.
#[derive(Clone, Copy, Debug, PartialEq, Eq, Error)]
pub enum ConfigError {
    /// A blob would hold nothing.
    #[error("zero blob size")]
    ZeroBlob,
    /// Nothing would be replayed at a time.
    #[error("zero apply batch")]
    ZeroBatch,
    /// Two of the names are one.
    #[error("two equal names")]
    SameName,
    /// This limit is above 16777216.
    #[error("value limit {0} above 16777216")]
    ValueLimit(u64),
    /// There is no memory.
    #[error("out of memory")]
    Memory,
}

impl From<AllocError> for ConfigError {
    ghost from_gives = { λ _ e. e ≡ Memory };

    fn from(_: AllocError) -> Self {
        ConfigError::Memory
    }
}

/// The names of the logs (operations, nodes of the tree, witnesses) and of the map, how many items a blob of each log
/// has, how many operations are replayed at a time, and the greatest length of a value in bytes.
#[derive(Drop)]
pub struct TwinConfig {
    log: String,
    nodes: String,
    metadata: String,
    witness: String,
    log_blob: NonZeroU64,
    node_blob: NonZeroU64,
    witness_blob: NonZeroU64,
    apply_batch: NonZeroU64,
    value_limit: u64,
}

impl Model for TwinConfig {
    ghost use Rattle.std.specs.Prelude.{string_bytes, ◌≡◌, ◌≤◌, false};
    ghost use Rattle.std.specs.NonZero.{non_zero_u64_get};
    ghost use Rattle.list_machine.specs.Config.{Config, config_of};

    ghost Value = { Config };

    ghost view = { λ c. config_of (string_bytes c.log) (string_bytes c.nodes) (string_bytes c.metadata)
        (string_bytes c.witness) (non_zero_u64_get c.log_blob) (non_zero_u64_get c.node_blob)
        (non_zero_u64_get c.witness_blob) (non_zero_u64_get c.apply_batch) c.value_limit };

    ghost use Rattle.list_machine.specs.ConfigNames.{are_names_same};

    ghost invariant = { λ c. (c.value_limit ≤ 16777216) ×
        (are_names_same (string_bytes c.log) (string_bytes c.nodes) (string_bytes c.metadata) (string_bytes c.witness) ≡
        false) };
}

impl TwinConfig {
    ghost use Rattle.std.specs.Prelude.{◌≡◌, ◌<◌, ◌≤◌, IfOk, IsOkUnless, MatchOption};
    ghost use Rattle.std.specs.NonZero.{non_zero_u64_get};
    ghost use Rattle.list_machine.specs.Config.{config_of, config_refusal, standard_config, AreNamesApart};

    /// A configuration of these names and numbers. It refuses, in this order and before memory is taken, with
    /// `ZeroBlob`, `ZeroBatch`, `SameName` and `ValueLimit`.
    pub fn new(
        alloc: Global,
        log: &str,
        nodes: &str,
        metadata: &str,
        witness: &str,
        log_blob: u64,
        node_blob: u64,
        witness_blob: u64,
        apply_batch: u64,
        value_limit: u64,
    ) -> Result<TwinConfig, ConfigError>
        ensures same { IfOk result (λ c. c ≡
            config_of log.now nodes.now metadata.now witness.now log_blob node_blob witness_blob apply_batch
            value_limit) }
        ensures answer { MatchOption
            (config_refusal (config_of log.now nodes.now metadata.now witness.now log_blob node_blob witness_blob
            apply_batch value_limit))
            (IsOkUnless result ConfigError.Memory) (λ e. result ≡ Err e) }
    {
        let blobs = (
            NonZeroU64::new(log_blob),
            NonZeroU64::new(node_blob),
            NonZeroU64::new(witness_blob),
        );
        let (Some(log_blob), Some(node_blob), Some(witness_blob)) = blobs else {
            return Err(ConfigError::ZeroBlob);
        };
        let Some(apply_batch) = NonZeroU64::new(apply_batch) else {
            return Err(ConfigError::ZeroBatch);
        };
        if has_same_names(log, nodes, metadata, witness) {
            return Err(ConfigError::SameName);
        }
        if value_limit > 16777216 {
            return Err(ConfigError::ValueLimit(value_limit));
        }
        Ok(TwinConfig {
            log: String::from_str(alloc, log)?,
            nodes: String::from_str(alloc, nodes)?,
            metadata: String::from_str(alloc, metadata)?,
            witness: String::from_str(alloc, witness)?,
            log_blob,
            node_blob,
            witness_blob,
            apply_batch,
            value_limit,
        })
    }

    /// The configuration of the program.
    pub fn standard(alloc: Global) -> Result<TwinConfig, ConfigError>
        ensures same { IfOk result (λ c. c ≡ standard_config) }
        ensures memory { IsOkUnless result ConfigError.Memory }
    {
        TwinConfig::new(
            alloc,
            "log",
            "nodes",
            "metadata",
            "witness",
            64,
            128,
            64,
            1024,
            VALUE_LIMIT,
        )
    }

    /// The name of the operation log.
    pub fn log(&self) -> &str
        ensures { result.now ≡ self.now.log }
    {
        self.log.as_str()
    }

    /// The name of the node log.
    pub fn nodes(&self) -> &str
        ensures { result.now ≡ self.now.nodes }
    {
        self.nodes.as_str()
    }

    /// The name of the map.
    pub fn metadata(&self) -> &str
        ensures { result.now ≡ self.now.metadata }
    {
        self.metadata.as_str()
    }

    /// The name of the witness log.
    pub fn witness(&self) -> &str
        ensures { result.now ≡ self.now.witness }
    {
        self.witness.as_str()
    }

    /// No two of the four names are one.
    pub fn names_apart(&self)
        ensures { AreNamesApart self.now }
    {
        let _limit = self.value_limit;
    }

    /// Values have at most 16777216 bytes.
    pub fn limit_within(&self)
        ensures { self.now.value_limit ≤ 16777216 }
    {
        let _limit = self.value_limit;
    }

    /// How many items a blob of the operation log has.
    pub fn log_blob(&self) -> NonZeroU64
        ensures value { non_zero_u64_get result ≡ self.now.log_blob }
        ensures some { 0 < self.now.log_blob }
    {
        let _some = self.log_blob.get();
        self.log_blob
    }

    /// How many nodes a blob of the node log has.
    pub fn node_blob(&self) -> NonZeroU64
        ensures value { non_zero_u64_get result ≡ self.now.node_blob }
        ensures some { 0 < self.now.node_blob }
    {
        let _some = self.node_blob.get();
        self.node_blob
    }

    /// How many witnesses a blob of the witness log has.
    pub fn witness_blob(&self) -> NonZeroU64
        ensures value { non_zero_u64_get result ≡ self.now.witness_blob }
        ensures some { 0 < self.now.witness_blob }
    {
        let _some = self.witness_blob.get();
        self.witness_blob
    }

    /// How many operations are replayed at a time.
    pub fn apply_batch(&self) -> NonZeroU64
        ensures value { non_zero_u64_get result ≡ self.now.apply_batch }
        ensures some { 0 < self.now.apply_batch }
    {
        let _some = self.apply_batch.get();
        self.apply_batch
    }

    /// The greatest length of a value.
    pub fn value_limit(&self) -> u64
        ensures value { result ≡ self.now.value_limit }
        ensures within { result ≤ 16777216 }
    {
        self.value_limit
    }
}

/// Whether two of these names are one.
fn has_same_names(log: &str, nodes: &str, metadata: &str, witness: &str) -> bool
    ensures { result ≡ are_names_same log.now nodes.now metadata.now witness.now }
{
    log == nodes
        || log == metadata
        || log == witness
        || nodes == metadata
        || nodes == witness
        || metadata == witness
}
