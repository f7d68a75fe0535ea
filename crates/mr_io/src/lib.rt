//! The outside of the program: files that it reads, and a sink that it writes to.
//!
//! - [`Files`]: objects that read files by name. [`Drawer`] holds its files in memory, and [`HostFiles`] reads the host's.
//! - [`Sink`]: objects that take bytes, some at a time. [`Tray`] takes them in memory, and [`HostOut`] writes and flushes
//!   them. [`write_whole`] writes until all bytes are taken.
//! - [`Opener`], [`Source`], [`Stream`] and [`Caller`]: what is asked of the host. [`words_of`] gives the words of the command line.
//!
//! Proved: a read appends the whole file or leaves what was there, and each answer has its cause: a failure of the host
//! comes only where the count of faults rose, and the others only where the contents, if the object tells them, say so.
//! `write_whole` has written the whole text, or has stopped at a fault behind a part of it; where it has, no write failed.
//! `HostFiles` asks for the file of the name, once, and fails exactly where the host opened none or a read of it failed; what it reads
//! is the whole file. `HostOut` hands a piece over once and has it flushed once, and fails exactly where one of the two was refused or
//! nothing was taken. Of the host's files no clause says what they hold, and of standard output none says where its bytes go.
#![tactic(auto)]

mod caller;
mod drawer;
mod files;
mod host;
mod host_files;
mod host_out;
mod sink;
mod text;
mod tray;

pub use caller::{Caller, wordless, words_of};
pub use drawer::{Drawer, File};
pub use files::{FileFault, Files};
pub use host::{Opener, Source, Stream};
pub use host_files::HostFiles;
pub use host_out::HostOut;
pub use sink::{Failed, Sink, write_whole};
pub use sqlite_items::Items;
pub use std::alloc::AllocError as OutOfMemory;
pub use text::Text;
pub use tray::Tray;
