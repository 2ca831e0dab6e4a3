use codec_base::{CodecError, InvalidAt};
use std::io;

/// How often each answer came.
#[derive(Clone, Copy)]
pub struct Counts {
    read: u64,
    end_of_buffer: u64,
    invalid_enum: u64,
    varint: u64,
    option: u64,
    length: u64,
    padding: u64,
    location: u64,
    range: u64,
    target: u64,
    compact_target: u64,
    extra: u64,
    other: u64,
}

impl Counts {
    /// No answer yet.
    pub fn new() -> Self {
        Counts {
            read: 0,
            end_of_buffer: 0,
            invalid_enum: 0,
            varint: 0,
            option: 0,
            length: 0,
            padding: 0,
            location: 0,
            range: 0,
            target: 0,
            compact_target: 0,
            extra: 0,
            other: 0,
        }
    }

    /// Counts an answer.
    pub fn add<T>(&mut self, answer: &Result<T, CodecError>) {
        let count = match answer {
            Ok(_) => &mut self.read,
            Err(CodecError::EndOfBuffer) => &mut self.end_of_buffer,
            Err(CodecError::InvalidEnum(_)) => &mut self.invalid_enum,
            Err(CodecError::Invalid(at)) => self.count_of(*at),
            Err(CodecError::Memory) => &mut self.other,
        };
        *count = count.saturating_add(1);
    }

    /// The count of what is invalid.
    fn count_of(&mut self, at: InvalidAt) -> &mut u64 {
        match at {
            InvalidAt::Varint => &mut self.varint,
            InvalidAt::Option => &mut self.option,
            InvalidAt::Length => &mut self.length,
            InvalidAt::Padding => &mut self.padding,
            InvalidAt::Location => &mut self.location,
            InvalidAt::NonEmptyRange => &mut self.range,
            InvalidAt::Target => &mut self.target,
            InvalidAt::CompactTarget => &mut self.compact_target,
            InvalidAt::ExtraData => &mut self.extra,
            InvalidAt::Witness => &mut self.other,
        }
    }

    /// Prints the answers that came, and ends the line.
    pub fn print(&self, rt: &impl Print) -> io::Result<()> {
        let answers = [
            ("read", self.read),
            ("EndOfBuffer", self.end_of_buffer),
            ("InvalidEnum", self.invalid_enum),
            ("Varint", self.varint),
            ("Option", self.option),
            ("Length", self.length),
            ("Padding", self.padding),
            ("Location", self.location),
            ("NonEmptyRange", self.range),
            ("Target", self.target),
            ("CompactTarget", self.compact_target),
            ("ExtraData", self.extra),
            ("other", self.other),
        ];
        for (name, count) in answers {
            if count > 0 {
                print!(rt; " {name}={count}")?;
            }
        }
        println!(rt)
    }
}
