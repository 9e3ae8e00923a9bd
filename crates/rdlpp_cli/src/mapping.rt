//! The line map of a run, where one is asked for.
use crate::OUTPUT_BYTES;
use crate::files::{RunFiles, WriteFault};
use rdlpp::{MapWriter, Placed, Watcher};
use std::fs::File;
use std::io::BufWriter;

/// The line map that is written, or none, or why it can't be.
#[derive(Drop)]
pub struct Mapping {
    map: Option<MapWriter<BufWriter<File>>>,
    failure: Option<WriteFault>,
}

impl Mapping {
    /// Whether it is written.
    pub fn is_open(&self) -> bool {
        self.map.is_some()
    }

    /// Takes a piece of the output, with what tells the place of its first byte.
    pub fn saw<P: Placed>(&mut self, piece: &[u8], placed: &P) {
        if let Some(map) = &mut self.map {
            map.saw(piece, placed);
        }
    }

    /// Writes what is left of the line map.
    ///
    /// # Errors
    /// The first error of its file, also of its open.
    pub fn finish(&mut self) -> Result<(), WriteFault> {
        if let Some(fault) = self.failure {
            return Err(fault);
        }
        if let Some(map) = &mut self.map {
            map.finish()?;
        }
        Ok(())
    }
}

/// Opens the line map at `path`, or none where there is no path.
pub fn open_mapping(rt: &HostRuntime, files: &mut RunFiles, path: Option<&String>) -> Mapping {
    let Some(path) = path else {
        return Mapping {
            map: None,
            failure: None,
        };
    };
    match map_writer(rt, files, path.as_str()) {
        Ok(map) => Mapping {
            map: Some(map),
            failure: None,
        },
        Err(fault) => Mapping {
            map: None,
            failure: Some(fault),
        },
    }
}

// The line map at a path, begun.
fn map_writer(
    rt: &HostRuntime,
    files: &mut RunFiles,
    path: &str,
) -> Result<MapWriter<BufWriter<File>>, WriteFault> {
    let file = files.open(rt, path)?;
    let writer = BufWriter::with_capacity(rt.alloc(), OUTPUT_BYTES, file)?;
    Ok(MapWriter::new(writer))
}
