//! The program `rbac` as a library: what it does for its arguments.
//!
//! # Which contract to read first
//!
//! 1. `program::run_with`: what the exit status says of the choice, the work, the output and the files. `run`
//!    says the same of the program's own files and sockets.
//! 2. `WorksOnConnection`, `DoesSubcommand` and `FailsOnConnection`, in specs/Work.antt: what a subcommand does
//!    over the state that a connection stores, and what it did if it failed.
//! 3. `DoesOnStore` and `FailsOnStore`, in specs/FileWork.antt: the same of files, and what the database file alone
//!    stores after the close.
//! 4. `LeavesPaths`, in specs/Leftovers.antt: which of the files that a store left are removed.
//! 5. `laws::work_is_stored`: what was done is in the file; `laws::runs_compose`: and in what the next run opens.
//!
//! # How data flows
//!
//! `run_with` makes a `Choice` of the arguments and has `run_in_file` do it. `run_on_path` opens the file in a folder,
//! `run_on_connection` opens the office on it and does the work, with the input, the output and a host, which
//! has the CSV files and the clients. The connection comes back, and `run_in_file` closes it. Work that fails
//! returns a `Failure`, and one line on standard error says which. `replay --memory` opens no file.
#![tactic(auto)]

pub use choice::{Choice, Place, Unchosen, choose};
pub use failure::Failure;
pub use files::{run_in_file, run_on_path};
pub use folder::{Entry, Folder, MachineFolder};
pub use host::{Accept, CsvFiles};
pub use machine::Machine;
pub use memory_folder::MemoryFolder;
pub use memory_host::MemoryHost;
pub use program::run;
pub use serving::serve_on;
pub use store_after::StoreAfter;
pub use work::run_on_connection;

pub mod choice;
mod command_line;
pub mod failure;
pub mod files;
pub mod folder;
pub mod host;
pub mod laws;
pub mod leftovers;
pub mod machine;
mod memory;
mod memory_file;
pub mod memory_folder;
pub mod memory_host;
pub mod program;
pub mod serving;
pub mod store_after;
pub mod work;
