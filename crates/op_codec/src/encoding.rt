use codec_base::{Duplicate, EncodeSize, FixedSize, Read, Write};
use std::marker::PhantomData;

/// How the values of operations are encoded.
pub trait ValueEncoding {
    /// What an operation holds.
    type Value: Write + EncodeSize + Read + Duplicate + Drop;
}

/// Operations of one length, over values of one length.
pub struct FixedEncoding<V> {
    value: PhantomData<V>,
}

/// Operations of any length.
pub struct VariableEncoding<V> {
    value: PhantomData<V>,
}

impl<V: Write + EncodeSize + FixedSize + Read + Duplicate + Drop> ValueEncoding
    for FixedEncoding<V> {
    type Value = V;
}

impl<V: Write + EncodeSize + Read + Duplicate + Drop> ValueEncoding for VariableEncoding<V> {
    type Value = V;
}
