//! What a crash may leave of a volume, each image opened again.
use crate::error::ScriptError;
use crate::whole_run::{LOG, NODES, WITNESS, answers};
use codec_base::Bytes;
use memory_volume::{LogChoice, MemoryVolume};
use std::alloc::Global;
use volume_base::Volume;

/// Past each version of a log, and past each end.
const PAST: u64 = u64::MAX;

/// A part of a version of a log.
#[derive(Clone, Copy)]
struct Part {
    version: u64,
    start: u64,
    end: u64,
}

/// The choice of a part of a log.
fn choice(alloc: Global, name: &str, part: Part) -> Result<LogChoice, ScriptError> {
    Ok(LogChoice {
        name: Bytes::from_slice(alloc, name.as_bytes())?,
        version: part.version,
        start: part.start,
        end: part.end,
    })
}

/// The bounds of a log where a crash leaves this part of it, or the one nearest to it.
fn bounds_of(
    alloc: Global,
    volume: &MemoryVolume,
    name: &str,
    part: Part,
) -> Result<(u64, u64), ScriptError> {
    let mut image = volume.crash(&[choice(alloc, name, part)?])?;
    Ok(image.log_bounds(name)?)
}

/// Adds the parts of a version that begin at a position and end at one of these, from the least to the greatest, where a
/// crash may leave them.
fn add_parts(
    alloc: Global,
    volume: &MemoryVolume,
    name: &str,
    (version, start): (u64, u64),
    (least, greatest): (u64, u64),
    parts: &mut Vec<Part>,
) -> Result<(), ScriptError> {
    for end in least..=greatest {
        let part = Part {
            version,
            start,
            end,
        };
        if bounds_of(alloc, volume, name, part)? == (start, end) {
            parts.push(part)?;
        }
    }
    Ok(())
}

/// What a crash may leave of a log: what begins where its newest version does, up to each end, and behind a prune what begins
/// before, of the oldest version. Versions between both begin like one of them.
fn parts_of(alloc: Global, volume: &MemoryVolume, name: &str) -> Result<Vec<Part>, ScriptError> {
    let lowest = Part {
        version: PAST,
        start: 0,
        end: 0,
    };
    let highest = Part {
        version: 0,
        start: PAST,
        end: PAST,
    };
    let (first, least) = bounds_of(alloc, volume, name, lowest)?;
    let (last, greatest) = bounds_of(alloc, volume, name, highest)?;
    let mut parts = Vec::new(alloc);
    for start in first..=last {
        let version = if start < last { PAST } else { 0 };
        let ends = (least, greatest);
        add_parts(alloc, volume, name, (version, start), ends, &mut parts)?;
    }
    Ok(parts)
}

/// The size at which both databases are opened on an image.
fn opening(alloc: Global, head: &str, image: &mut MemoryVolume) -> Result<u64, ScriptError> {
    let Ok(replies) = answers(alloc, head, "", image)? else {
        return Err(ScriptError::Script);
    };
    match replies.as_slice().first() {
        Some(opened) => Ok(opened.size),
        None => Err(ScriptError::Script),
    }
}

/// The images of a volume that were opened: how many, and at which sizes.
#[derive(Drop)]
struct Opened<'a> {
    alloc: Global,
    head: &'a str,
    volume: &'a MemoryVolume,
    images: u64,
    sizes: Vec<u64>,
}

impl Opened<'_> {
    /// Opens the image of these parts.
    fn open(&mut self, log: Part, nodes: Part, witnesses: Part) -> Result<(), ScriptError> {
        let mut image = self.volume.crash(&[
            choice(self.alloc, LOG, log)?,
            choice(self.alloc, NODES, nodes)?,
            choice(self.alloc, WITNESS, witnesses)?,
        ])?;
        let size = opening(self.alloc, self.head, &mut image)?;
        self.images = self.images.saturating_add(1);
        if !self.sizes.contains(&size) {
            self.sizes.push(size)?;
        }
        Ok(())
    }

    /// Opens the images of these parts of the operation log and of the node log, beside each of the witness log.
    fn open_both(&mut self, log: Part, nodes: Part, witnesses: &[Part]) -> Result<(), ScriptError> {
        for part in witnesses {
            self.open(log, nodes, *part)?;
        }
        Ok(())
    }

    /// Opens the images of this part of the operation log, beside each of the node log and of the witness log.
    fn open_one(
        &mut self,
        log: Part,
        nodes: &[Part],
        witnesses: &[Part],
    ) -> Result<(), ScriptError> {
        for part in nodes {
            self.open_both(log, *part, witnesses)?;
        }
        Ok(())
    }

    /// Opens the images of each part of the operation log, beside each of the node log and of the witness log.
    fn open_all(&mut self) -> Result<(), ScriptError> {
        let nodes = parts_of(self.alloc, self.volume, NODES)?;
        let witnesses = parts_of(self.alloc, self.volume, WITNESS)?;
        for part in parts_of(self.alloc, self.volume, LOG)? {
            self.open_one(part, &nodes, &witnesses)?;
        }
        self.sizes.sort()?;
        Ok(())
    }
}

/// How many images a crash may leave, and at which sizes they are opened, the least first.
fn images_text(alloc: Global, head: &str, volume: &MemoryVolume) -> Result<String, ScriptError> {
    let mut opened = Opened {
        alloc,
        head,
        volume,
        images: 0,
        sizes: Vec::new(alloc),
    };
    opened.open_all()?;
    let mut text = format!(in alloc; "{} images at", opened.images)?;
    for size in &opened.sizes {
        text.push_str(format!(in alloc; " {size}")?.as_str())?;
    }
    Ok(text)
}

/// The bounds of the logs of a volume, at which size it is opened as it is, and at which each image that a crash may leave
/// of it is, of logs that were pruned once at most behind their last sync.
pub(crate) fn left_text(
    alloc: Global,
    head: &str,
    volume: &MemoryVolume,
) -> Result<String, ScriptError> {
    let mut present = volume.crash(&[])?;
    let (start, end) = present.log_bounds(LOG)?;
    let (first_node, last_node) = present.log_bounds(NODES)?;
    let (first, last) = present.log_bounds(WITNESS)?;
    let opens = opening(alloc, head, &mut present)?;
    let images = images_text(alloc, head, volume)?;
    Ok(format!(in alloc;
        "log {start} to {end}, nodes {first_node} to {last_node}, witnesses {first} to {last}; opens at {opens}, {images}"
    )?)
}
