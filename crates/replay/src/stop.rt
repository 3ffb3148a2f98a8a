// Why a run stops before its file ends.
use runfile::Mistake;
use std::io;
use thiserror::Error;

#[derive(Debug, Drop, Error)]
pub enum Stop {
    #[error("{0}")]
    Mistake(#[from] Mistake),
    #[error("no start before this line")]
    NoStart,
    #[error("more than 65536 events on a list")]
    ManyEvents,
    #[error("the file cannot be read")]
    UnreadableRom,
    #[error("the file has more than 65536 bytes")]
    LongRom,
    #[error("line of more than 4096 bytes")]
    LongLine,
    // The run file itself, and not what a line says.
    #[error("{0}")]
    UnreadableRun(io::Error),
}
