use codec_base::CodecError;
use command_text::LineError;
use hex::FromHexError;
use std::alloc::{AllocError, AllocFailed};
use std::io;
use std::str::Utf8Error;
use stream_base::WriteFailed;
use twin_run::ConfigError;
use volume_base::VolumeError;

/// Why a script wasn't gone through.
#[derive(Debug, Drop)]
pub(crate) enum ScriptError {
    /// It says no case, or its commands are none.
    Script,
    Memory,
    Streams,
}

impl From<CodecError> for ScriptError {
    fn from(_: CodecError) -> Self {
        ScriptError::Memory
    }
}

impl From<VolumeError> for ScriptError {
    fn from(_: VolumeError) -> Self {
        ScriptError::Memory
    }
}

impl From<AllocError> for ScriptError {
    fn from(_: AllocError) -> Self {
        ScriptError::Memory
    }
}

impl<T: Drop> From<AllocFailed<T>> for ScriptError {
    fn from(_: AllocFailed<T>) -> Self {
        ScriptError::Memory
    }
}

impl From<WriteFailed> for ScriptError {
    fn from(_: WriteFailed) -> Self {
        ScriptError::Memory
    }
}

impl From<ConfigError> for ScriptError {
    fn from(_: ConfigError) -> Self {
        ScriptError::Script
    }
}

impl From<LineError> for ScriptError {
    fn from(_: LineError) -> Self {
        ScriptError::Script
    }
}

impl From<FromHexError> for ScriptError {
    fn from(_: FromHexError) -> Self {
        ScriptError::Script
    }
}

impl From<Utf8Error> for ScriptError {
    fn from(_: Utf8Error) -> Self {
        ScriptError::Script
    }
}

impl From<io::Error> for ScriptError {
    fn from(_: io::Error) -> Self {
        ScriptError::Streams
    }
}
