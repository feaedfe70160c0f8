//! The command line of the desk's program, `mpw script ..` or `mpw serve ..`, and the settings that it gives.
//!
//! [`read_settings`] reads the words by `clap`; each option's value is then that of its row of what `clap` found. An option that
//! both subcommands have is read once, in `officer`.
#![tactic(auto)]

mod fault;
mod officer;
mod options;
mod script;
mod service;
mod service_options;
mod settings;
mod store;
mod strangers;

pub use fault::SettingsFault;
pub use officer::Officer;
pub use script::Script;
pub use service::{Log, MAX_CONNECTIONS, MAX_IDLE, MAX_WORKERS, Service, Strangers};
pub use settings::{Settings, read_settings};
pub use store::Store;
pub use strangers::{MAX_LOGIN, MAX_STRANGER_MEMORY, MAX_STRANGER_RATE, MEGABYTE, MIN_LOGIN};
