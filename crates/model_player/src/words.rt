//! The words of a line that stand for more than numbers.

use gdp_tables::Tri;
use script::{Trouble, shown};
use std::alloc::Global;

/// What is known of a truth value for each byte, `y`, `n` or another.
pub fn tris(alloc: Global, word: &str) -> Result<Vec<Tri>, Trouble> {
    let mut tris = Vec::new(alloc);
    for byte in word.bytes() {
        let tri = match byte {
            b'y' => Tri::Yes,
            b'n' => Tri::No,
            _ => Tri::Open,
        };
        tris.push(tri)?;
    }
    Ok(tris)
}

/// What is known of a truth value, as a word.
pub fn tri_text(alloc: Global, tri: Tri) -> Result<String, Trouble> {
    match tri {
        Tri::Yes => shown(alloc, &"yes"),
        Tri::No => shown(alloc, &"no"),
        Tri::Open => shown(alloc, &"open"),
    }
}
