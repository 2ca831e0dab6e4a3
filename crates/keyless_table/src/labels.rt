//! How a step is named.
use crate::error::TableError;
use crate::steps::{Ask, BatchAsk, Change, Step};

/// Numbers, from the left, and a colon.
fn print_places(rt: &impl Print, places: &[u64]) -> Result<(), TableError> {
    for place in places {
        print!(rt; " {place}")?;
    }
    print!(rt; ":")?;
    Ok(())
}

fn print_batch_ask(rt: &impl Print, ask: BatchAsk) -> Result<(), TableError> {
    match ask {
        BatchAsk::Get(place) => print!(rt; " get {place}:")?,
        BatchAsk::GetMany(places) => {
            print!(rt; " get many")?;
            print_places(rt, places)?;
        }
        BatchAsk::Proof => print!(rt; " proof:")?,
        BatchAsk::Pins => print!(rt; " pins:")?,
    }
    Ok(())
}

fn print_ask(rt: &impl Print, ask: Ask) -> Result<(), TableError> {
    match ask {
        Ask::Get(place) => print!(rt; "  get {place}:")?,
        Ask::GetMany(places) => {
            print!(rt; "  get many")?;
            print_places(rt, places)?;
        }
        Ask::Proof(size, start, most) => print!(rt; "  proof {size} {start} {most}:")?,
        Ask::Pins(place) => print!(rt; "  pins {place}:")?,
        Ask::Boundary => print!(rt; "  sync boundary:")?,
        Ask::Present(start, most) => print!(rt; "  proof {start} {most}:")?,
        Ask::Serve(size, start, most) => print!(rt; "  serve {size} {start} {most}:")?,
        Ask::ServeBoundary(size, start) => print!(rt; "  serve boundary {size} {start}:")?,
        Ask::Batch(number, ask) => {
            print!(rt; "  batch {number}")?;
            print_batch_ask(rt, ask)?;
        }
    }
    Ok(())
}

fn print_change(rt: &impl Print, change: Change) -> Result<(), TableError> {
    match change {
        Change::Apply(number) => print!(rt; "  apply {number}:")?,
        Change::Commit => print!(rt; "  commit:")?,
        Change::Sync => print!(rt; "  sync:")?,
        Change::StartSync => print!(rt; "  start sync:")?,
        Change::Prune(place) => print!(rt; "  prune {place}:")?,
        Change::Open(None) => print!(rt; "  open:")?,
        Change::Open(Some(cap)) => print!(rt; "  open at most {cap}:")?,
        Change::Destroy => print!(rt; "  destroy:")?,
    }
    Ok(())
}

/// Prints what is called.
pub(crate) fn print_label(rt: &impl Print, step: Step) -> Result<(), TableError> {
    match step {
        Step::Seal(None, values) => {
            print!(rt; "  seal {} {} {}:", values.0, values.1, values.2)?;
        }
        Step::Seal(Some(parent), values) => {
            print!(rt;
                "  seal on {parent} {} {} {}:",
                values.0, values.1, values.2
            )?;
        }
        Step::Batch(values) => print!(rt; "  batch {} {} {}:", values.0, values.1, values.2)?,
        Step::Ask(ask) => print_ask(rt, ask)?,
        Step::Change(change) => print_change(rt, change)?,
    }
    Ok(())
}
