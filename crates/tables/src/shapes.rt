//! The shape of a tree, a line for each number of leaves.
ghost use Rattle.std.specs.Prelude.{◌≤◌, ◌<◌, ◌^◌};

use std::io;
use tree_core::{Family, Location};

/// Prints the peaks of n leaves, the oldest first, each with its height and its position.
fn print_peaks<F: Family>(rt: &impl Print, n: u64) -> io::Result<()>
    requires { n < 2 ^ 62 }
{
    let mut left = F::peak_count(n);
    for pin in F::nodes_to_pin(Location::new(n)) {
        if left > 0 {
            left -= 1;
            print!(rt; " {}@{}", F::peak_height(n, left), pin.as_u64())?;
        }
    }
    Ok(())
}

/// Prints the nodes that the append of leaf n makes, each with its first leaf, its height and its position.
fn print_made<F: Family>(rt: &impl Print, n: u64) -> io::Result<()>
    requires { n < 2 ^ 62 }
{
    print!(rt;
        " {n}/0@{}",
        F::location_to_position(Location::new(n)).as_u64()
    )?;
    for i in 0..63 {
        if let Some((start, height)) = F::parent(n, i) {
            print!(rt; " {start}/{height}@{}", F::position(start, height))?;
        }
    }
    Ok(())
}

/// Prints the line of n leaves.
pub(crate) fn print_line<F: Family>(rt: &impl Print, name: &str, n: u64) -> io::Result<()>
    requires { n < 2 ^ 62 }
{
    print!(rt; "{name} {n} {}", F::size(n))?;
    print_peaks::<F>(rt, n)?;
    print!(rt; " :")?;
    print_made::<F>(rt, n)?;
    println!(rt)
}
