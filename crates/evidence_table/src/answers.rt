//! What was answered.
ghost use Rattle.std.specs.Prelude.{◌<◌};

use crate::byte_hash::ByteDigest;
use crate::error::TableError;
use codec_base::Bytes;
use std::alloc::Global;
use tree_evidence::Clash;
use tree_shape::{Digest, Hasher, Sha256Hasher};

/// The names of what is hashed, by the byte with which its input begins.
const KINDS: [&str; 4] = ["leaf", "node", "fold", "root"];

/// Which kind of input it is.
fn kind_of(input: &Bytes) -> usize
    ensures { result < 4 }
{
    match input.as_slice().first() {
        Some(tag) => usize::from(*tag % 4),
        None => 0,
    }
}

/// How often each answer came, and a digest over all answers.
#[derive(Drop)]
pub(crate) struct Answers {
    all: Sha256Hasher,
    equal: u64,
    differ: u64,
    clashes: [u64; 4],
}

impl Answers {
    /// Nothing was answered yet.
    pub(crate) fn new() -> Self {
        Answers {
            all: Sha256Hasher::new(),
            equal: 0,
            differ: 0,
            clashes: [0; 4],
        }
    }

    /// Adds an input, behind its length in 8 bytes.
    fn add_input(&mut self, input: &Bytes) {
        self.all.update(&input.len().to_be_bytes());
        self.all.update(input.as_slice());
    }

    /// Adds two inputs that clash, and prints the first two of each kind.
    fn add_clash(
        &mut self,
        rt: &impl Print,
        alloc: Global,
        title: &str,
        first: &Bytes,
        second: &Bytes,
    ) -> Result<(), TableError> {
        self.all.update(&[2]);
        self.add_input(first);
        self.add_input(second);
        let kind = kind_of(first);
        if self.clashes[kind] == 0 {
            println!(rt;
                "{title} {} {} {}",
                KINDS[kind],
                hex::encode(alloc, first.as_slice())?.as_str(),
                hex::encode(alloc, second.as_slice())?.as_str()
            )?;
        }
        self.clashes[kind] = self.clashes[kind].saturating_add(1);
        Ok(())
    }

    /// Adds an answer.
    pub(crate) fn add(
        &mut self,
        rt: &impl Print,
        alloc: Global,
        title: &str,
        answer: &Clash<ByteDigest>,
    ) -> Result<(), TableError> {
        match answer {
            Clash::Equal => {
                self.all.update(&[0]);
                self.equal = self.equal.saturating_add(1);
                Ok(())
            }
            Clash::RootsDiffer(first, second) => {
                self.all.update(&[1]);
                self.all.update(first.as_slice());
                self.all.update(second.as_slice());
                self.differ = self.differ.saturating_add(1);
                Ok(())
            }
            Clash::Clash(first, second) => self.add_clash(rt, alloc, title, first, second),
        }
    }

    /// Prints how often each answer came, and the digest.
    pub(crate) fn print(
        self,
        rt: &impl Print,
        alloc: Global,
        title: &str,
    ) -> Result<(), TableError> {
        println!(rt; "{title} equal {} roots differ {}", self.equal, self.differ)?;
        for i in 0..4 {
            println!(rt; "{title} {} clashes {}", KINDS[i], self.clashes[i])?;
        }
        let all = self.all.finish();
        println!(rt;
            "{title} answers {}",
            hex::encode(alloc, all.as_slice())?.as_str()
        )?;
        Ok(())
    }
}
